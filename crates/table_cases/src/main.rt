// The cases of document 01 that name the check or the lookup, and those of levels, of four hundred jobs and of tag 9 (document 02, requests 4, 8 and 13): a
// line for each, with the number that the form for C gives.
#![tactic(auto)]

mod checked;
mod long;
mod looked;

fn main(rt: HostRuntime) {
    checked::all(&rt);
    looked::all(&rt);
    long::all(&rt);
}
