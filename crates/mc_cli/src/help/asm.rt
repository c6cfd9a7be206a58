//! What help says of the subcommand `asm`.
use crate::help::Help;

pub const ASM: Help = Help {
    name: "asm",
    usage: "mcrace asm [--why] < FILE > IMAGE",
    about: "Assembles the script on standard input",
    long_about: "Assembles the script on standard input, and writes its image.

`mcrace help script` describes scripts and why one is refused, and `mcrace help
image` describes images.

Whether the code keeps its budgets and its flags isn't checked: `mcrace check`
does that.

With `--why` a refusal is followed by the input's line, with a caret under the
word at fault and what was expected there.",
    short_statuses: "Exit status: 0 assembled, 2 wrong line, 3 refused, 4 otherwise.
Read on: mcrace asm --help, mcrace help script, mcrace help image",
    statuses: "Exit status:
  0  assembled
  2  the command line is wrong
  3  refused: the input is no script, a script that is too large, or has more
     than 1,048,576 bytes
  4  out of memory; or input or output failed",
};
