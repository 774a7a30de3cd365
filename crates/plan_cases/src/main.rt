// The cases of document 01 that name the planner, and those of levels, of needs given twice, of four hundred jobs and of tag 9 (document 02, requests 4, 6,
// 8 and 13): a line for each, with the planner's answer, what the check says of the table, and whether both buffers are as that answer leaves them.
#![tactic(auto)]

mod answers;
mod given;
mod paper;
mod sockets;

fn main(rt: HostRuntime) {
    paper::all(&rt);
    given::all(&rt);
    sockets::all(&rt);
}
