//! Answers in JSON or in JUnit's XML, made of the text that is written without.
use mc_answers::{Sink, Status, Writer, write_text};
use mc_cli::CampaignArgs;
use mc_convert::{CampaignArguments, campaign_json, campaign_junit, report_json};
use std::alloc::{AllocError, Global};
use std::str;

// What is written as it is: it says that nothing was done.
const UNDONE: [&[u8]; 3] = [
    b"out of memory\n",
    b"not run\n",
    b"refused input too long\n",
];

/// The form of an answer.
#[derive(Clone, Copy, Drop)]
pub enum Form<'a> {
    /// An object for a run or for several.
    Run,
    /// A line for each job that isn't explained, and one for each report.
    Campaign(CampaignArguments<'a>),
    /// The report that CI systems read.
    Junit,
    /// The text itself.
    Same,
}

impl<'a> Form<'a> {
    /// In which form the campaign is reported, if not as text.
    pub fn of_campaign(target: &CampaignArgs<'a>) -> Option<Form<'a>> {
        let plan = target.plan;
        if plan.junit {
            return Some(Form::Junit);
        }
        let name = target.name.as_ref();
        plan.json.then_some(Form::Campaign(CampaignArguments {
            seed: plan.seed,
            from: plan.first,
            jobs: plan.until.is_none().then_some(plan.jobs),
            name: name.and_then(|name| str::from_utf8(name.as_slice()).ok()),
        }))
    }

    fn text(self, alloc: Global, text: &[u8]) -> Result<Vec<u8>, AllocError> {
        match self {
            Form::Run => report_json(alloc, text),
            Form::Campaign(arguments) => campaign_json(alloc, text, Some(arguments)),
            Form::Junit => campaign_junit(alloc, text),
            Form::Same => Vec::from_slice(alloc, text),
        }
    }
}

/// Writes the text in the form, and answers its status; or 4 if it isn't written. There is no text if memory ran out.
pub fn write_in<O: Sink>(
    alloc: Global,
    form: Form<'_>,
    text: Option<&[u8]>,
    status: u8,
    output: &mut O,
) -> u8 {
    let Some(text) = text else {
        return write_text(UNDONE[0], Status::NoAnswer, output).number();
    };
    if UNDONE.contains(&text) {
        return write_whole(text, status, output);
    }
    match form.text(alloc, text) {
        Ok(made) => write_whole(made.as_slice(), status, output),
        Err(AllocError) => write_text(UNDONE[0], Status::NoAnswer, output).number(),
    }
}

fn write_whole<O: Sink>(text: &[u8], status: u8, output: &mut O) -> u8 {
    match output.write_all(text) {
        Ok(()) => status,
        Err(_) => Status::NoAnswer.number(),
    }
}
