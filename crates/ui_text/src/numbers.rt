//! What the numbers of refusals mean.

/// What the refusal of this number means.
pub fn meaning(number: u32) -> &'static str {
    match number {
        1 => "no process has this name",
        2 => "the process has no such command",
        3 => "the guard of the command is false",
        4 => "an evaluation faults: a number out of range, or a division by 0",
        5 => "there is no message to receive",
        6 => "the process has no event to undo",
        7 => "a process has received the message that the event sent",
        8 => "the process has nothing to redo",
        9 => "a breakpoint halts the session",
        10 => "the process has fewer events",
        11 => "a breakpoint already has this name",
        12 => "no breakpoint has this name",
        13 => "the breakpoint has no cut",
        14 => "the breakpoint is not armed",
        15 => "the breakpoint is already armed",
        16 => "no command is left to take back",
        17 => "another seat gave the last command",
        18 => "the process has 20,000 events, the maximum",
        19 => "there are 64 breakpoints, the maximum",
        20 => "100,000 calls were entered, the maximum",
        21 => "out of memory",
        22 => "syntax error",
        23 =>
            "a predicate is not a truth expression of its process, or the process already has one",
        24 => "no command of the process can fire",
        25 =>
            "a command of the batch is refused: the numbers are its position, from 1, and its refusal",
        _ => "no refusal has this number",
    }
}
