#![tactic(auto)]
// slips: runs a script of calls on a fresh store and prints the answers.
// By hand: a crate for each input of the gate, where a program has one standard input.
fn main(rt: HostRuntime) {
    program::run(&mut rt.stdin(), &mut rt.stdout());
}
