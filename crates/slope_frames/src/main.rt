// Answers the sheets on standard input, each a frame, as the program does with --frames: for the gate.
#![tactic(auto)]

fn main(rt: HostRuntime) {
    lines::answer_frames(&rt, &mut rt.stdin(), lines::ALL_FRAMES);
}
