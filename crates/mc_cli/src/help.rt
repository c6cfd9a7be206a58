//! What help says of each subcommand.

mod asm;
mod campaign;
mod check;
mod convert;
mod draw;
mod drive;
mod formats;
mod generate;
mod history;
mod image;
mod join;
mod judge;
mod record;
mod run;
mod script;
mod selftest;
mod serve;
mod steps;
mod stress;
mod test;

pub use asm::ASM;
pub use campaign::CAMPAIGN;
pub use check::CHECK;
pub use convert::CONVERT;
pub use draw::DRAW;
pub use drive::DRIVE;
pub use formats::FORMATS;
pub use generate::GENERATE;
pub use history::HISTORY;
pub use image::IMAGE;
pub use join::JOIN;
pub use judge::JUDGE;
pub use record::RECORD;
pub use run::RUN;
pub use script::SCRIPT;
pub use selftest::SELFTEST;
pub use serve::SERVE;
pub use steps::STEPS;
pub use stress::STRESS;
pub use test::TEST;

/// What help says of a subcommand, beside its options.
pub struct Help {
    pub name: &'static str,
    /// How it is called.
    pub usage: &'static str,
    /// What it does, in a line.
    pub about: &'static str,
    /// What it does, at length.
    pub long_about: &'static str,
    /// Its exit statuses in a line, and where to read on.
    pub short_statuses: &'static str,
    /// Its exit statuses, a line for each.
    pub statuses: &'static str,
}

/// The exit statuses of all subcommands in a line, and where to read on.
pub const SHORT_STATUSES: &str =
    "Exit status: 0 all is right, 1 the server has a fault, 2 wrong command line,
3 the input is refused, 4 otherwise, 5 the server failed during a test.
Read on: mcrace help COMMAND, or mcrace help formats";

/// The exit statuses of all subcommands, and the topics of help.
pub const STATUSES: &str = "Exit status:
  0  explained, confirmed, accepted or assembled; or help or the version
  1  unexplained, or not confirmed; or a section failed by BadReply; or the
     selftest failed
  2  the command line is wrong
  3  refused: the input is no history, no script, no image or no step list, a
     script that is too large, or code with a fault; or has more than 1,048,576
     bytes
  4  undecided; a section isn't done; or out of memory; or input or output
     failed
  5  test: the server failed, and nothing else was found

Topics:
  mcrace help formats  what mcrace reads and writes
  mcrace help history  what a server was sent and answered
  mcrace help script   what three clients send
  mcrace help steps    a schedule for a script
  mcrace help image    a script in bytes
  mcrace help all      the help of all subcommands, and all topics";

/// The names of the subcommands, in the order of their help.
pub const NAMES: &[&str] = &[
    "test", "run", "campaign", "stress", "record", "serve", "selftest", "generate", "judge",
    "draw", "convert", "join", "check", "asm", "drive",
];
