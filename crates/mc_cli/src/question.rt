//! What a line asks of its input, if the input alone answers it.

use crate::args::{CheckArgs, ConvertArgs, DrawArgs, JudgeArgs, Search};

/// A question about the input, which no network answers.
#[derive(Drop)]
pub enum Question<'a> {
    /// A judgement of a history.
    Judge(JudgeArgs<'a>),
    /// Whether the code of a script or of an image is sound.
    Check(CheckArgs),
    /// The image of a script; and whether the answer shows the line for which a script is refused.
    Asm(bool),
    /// What the steps after a script come to, judged by this search.
    Drive(Search),
    /// A picture of a history.
    Draw(DrawArgs<'a>),
    /// A history in another notation.
    Convert(ConvertArgs),
    /// The report of a campaign that ran in parts.
    Join,
}

impl Question<'_> {
    /// What is read on standard input, as a person is asked for it.
    pub fn input_name(&self) -> &'static str {
        match self {
            Question::Judge(_) | Question::Draw(_) | Question::Convert(_) => "a history",
            Question::Check(_) => "a script or an image",
            Question::Asm(_) | Question::Drive(_) => "a script",
            Question::Join => "reports of a campaign",
        }
    }
}
