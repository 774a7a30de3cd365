// A set of numbers below 64, one bit of a u64 each: i is a member where digit i of the number is 1. It is a set of places of a slot, of ranks of
// its jobs, of boards, or of the jobs that one word of a row of needs stands for.
// Callers use the laws of membership in specs/ and never the bits.
#![tactic(auto)]

ghost use Rattle.std.specs.Prelude.{◌≡◌, ◌∷◌, [], false, ◌<◌, MatchOption};
ghost use Rattle.std.specs.Iterator.{YieldsFirst, item_count};
ghost use Rattle.jobset.specs.Sets.{member, members, one, with, without, union, minus, intersection, is_subset, is_empty, is_one, size, lowest};

#[derive(Clone, Copy)]
pub struct Set {
    pub bits: u64,
}

impl Set {
    // The set with no member.
    pub const EMPTY: Set = Set { bits: 0 };

    // The set whose members are the digits 1 of a byte.
    pub fn of_byte(byte: u8) -> Set
        ensures { (result.bits ≡ byte) × (byte < 256) }
    {
        Set {
            bits: u64::from(byte),
        }
    }

    // The set whose one member is i.
    pub fn one(i: usize) -> Set
        requires { i < 64 }
        ensures { result ≡ one i }
    {
        Set { bits: 1 << i }
    }

    // This set, and i.
    pub fn with(self, i: usize) -> Set
        requires { i < 64 }
        ensures { result ≡ with self i }
    {
        let one = Set::one(i);
        self.union(one)
    }

    // This set but i.
    pub fn without(self, i: usize) -> Set
        requires { i < 64 }
        ensures { result ≡ without self i }
    {
        let one = Set::one(i);
        self.minus(one)
    }

    // This set but its lowest member.
    pub fn rest(self) -> Set
        requires { is_empty self ≡ false }
        ensures { result ≡ without self (lowest self) }
    {
        Set {
            bits: self.bits & (self.bits - 1),
        }
    }

    // Is i a member?
    pub fn has(self, i: usize) -> bool
        requires { i < 64 }
        ensures { result ≡ member self i }
    {
        (self.bits >> i) % 2 == 1
    }

    // The members of either set.
    pub fn union(self, other: Set) -> Set
        ensures { result ≡ union self other }
    {
        Set {
            bits: self.bits | other.bits,
        }
    }

    // The members that the other set has not.
    pub fn minus(self, other: Set) -> Set
        ensures { result ≡ minus self other }
    {
        Set {
            bits: self.bits ^ (self.bits & other.bits),
        }
    }

    // The members of both sets.
    pub fn intersection(self, other: Set) -> Set
        ensures { result ≡ intersection self other }
    {
        Set {
            bits: self.bits & other.bits,
        }
    }

    // Is each member one of the other set?
    pub fn is_subset(self, other: Set) -> bool
        ensures { result ≡ is_subset self other }
    {
        self.bits & other.bits == self.bits
    }

    // Has it no member?
    pub fn is_empty(self) -> bool
        ensures { result ≡ is_empty self }
    {
        self.bits == 0
    }

    // Has it exactly one member?
    pub fn is_one(self) -> bool
        ensures { result ≡ is_one self }
    {
        if self.bits == 0 {
            false
        } else {
            self.bits & (self.bits - 1) == 0
        }
    }

    // How many members has it? (Taking them off is quicker than counting where there are few.)
    pub fn count(self) -> u32
        ensures { result ≡ size self }
    {
        self.into_iter().count() as u32
    }

    // The lowest member; where there is none, 64, as trailing_zeros has it (split_first says so by an Option).
    pub fn lowest(self) -> u32
        ensures { result ≡ lowest self }
    {
        u64::trailing_zeros(self.bits)
    }

    // The lowest member and the set of the others; none where there is no member.
    pub fn split_first(self) -> Option<(usize, Set)>
        ensures { MatchOption result (members self ≡ []) (λ p. members self ≡ p.0 ∷ members p.1) }
    {
        if self.is_empty() {
            return None;
        }
        Some((self.lowest() as usize, self.rest()))
    }
}

// The members of a set, rising: those that are still to come.
#[derive(Clone, Copy)]
pub struct Members {
    pub rest: Set,
}

impl Iterator for Members {
    type Item = usize;

    ghost next_gives = { YieldsFirst (λ s. members s.rest) };

    ghost remaining = { item_count (λ s. members s.rest) };

    fn next(&mut self) -> Option<usize> {
        let (first, others) = self.rest.split_first()?;
        self.rest = others;
        Some(first)
    }
}

impl IntoIterator for Set {
    type Item = usize;

    type IntoIter = Members;

    fn into_iter(self) -> Members
        ensures { result.rest ≡ self }
    {
        Members { rest: self }
    }
}
