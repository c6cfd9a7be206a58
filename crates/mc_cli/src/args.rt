//! What a line asks for, part by part.
ghost use Rattle.std.specs.Prelude.{◌≡◌, ◌↔◌, ◌+◌, ◌*◌, ◌≤◌, ◌^◌, None, true};
ghost use Rattle.std.specs.Duration.{as_nanos};
ghost use Rattle.mc_cli.specs.Line.{section_server};

use mc_protocol::Actor;
use mc_settings::{Meeting, Mix, Namespace};
use std::fmt::{Display, Error, Formatter, Write};
use std::marker::Model;
use std::time::Duration;

/// The most jobs that a line may name.
pub const GREATEST_JOBS: u64 = 10_000;

/// The most workers that a line may name.
pub const GREATEST_WORKERS: u32 = 16;

/// How an explanation is searched for.
#[derive(Clone, Copy, Drop, PartialEq, Eq)]
pub struct Search {
    /// The most turns of a search.
    pub limit: u64,
    /// Whether the answer says why nothing explains a history, and which word of a refused text is at fault. Each search for it takes
    /// at most `limit` turns.
    pub why: bool,
}

/// A word that is sought among the keys of a history, and may be none of them. Contracts see its bytes.
#[derive(Drop)]
pub struct SoughtKey<'a> {
    word: &'a str,
}

impl<'a> Model for SoughtKey<'a> {
    ghost use Rattle.std.specs.Prelude.{ℕ, List};

    ghost Value = { List ℕ };

    ghost view = { λ k. k.word.now };
}

impl<'a> SoughtKey<'a> {
    /// The word as such a key.
    pub fn new(word: &'a str) -> Self
        ensures { result ≡ word.entry.now }
    {
        SoughtKey { word }
    }

    /// Its bytes.
    pub fn as_bytes(&self) -> &'a [u8]
        ensures { result.now ≡ self.now }
    {
        self.word.as_bytes()
    }
}

/// How a history is judged.
#[derive(Drop)]
pub struct JudgeArgs<'a> {
    /// How an explanation is searched for.
    pub how: Search,
    /// The most turns of the search for each key of a timeline, if the line names a limit.
    pub limit: Option<u64>,
    /// The one key of a timeline that is judged, if it isn't each.
    pub key: Option<SoughtKey<'a>>,
    /// Whether the answer is JSON.
    pub json: bool,
    /// Whether the history is read from what `run` or `campaign` printed; so it is if a job is named.
    pub run: bool,
    /// The number of the campaign's job whose history is judged, if it isn't the first one.
    pub job: Option<u64>,
}

/// How a script or an image is checked.
#[derive(Clone, Copy, Drop, PartialEq, Eq)]
pub struct CheckArgs {
    /// Whether the answer shows the line for which a script is refused.
    pub why: bool,
    /// Whether the answer is JSON.
    pub json: bool,
}

/// Another notation of histories, in which other programs read them.
#[derive(Clone, Copy, Drop, PartialEq, Eq)]
pub enum Notation {
    Json,
    /// What Jepsen's programs read.
    Edn,
}

/// How a history is converted.
#[derive(Clone, Copy, Drop, PartialEq, Eq)]
pub struct ConvertArgs {
    pub to: Notation,
    /// The number of the campaign's job whose history is converted, if it isn't the first one.
    pub job: Option<u64>,
}

/// How a history is drawn.
#[derive(Drop)]
pub struct DrawArgs<'a> {
    /// Whether the picture is text, and not SVG.
    pub text: bool,
    /// Whether a text has the numbers of the lines of the input.
    pub lines: bool,
    /// The most turns of a search for what explains the history.
    pub limit: u64,
    /// The number of the campaign's job whose history is drawn, if it isn't the first one.
    pub job: Option<u64>,
    /// The one key of a timeline that is drawn, if the line names it.
    pub key: Option<SoughtKey<'a>>,
}

/// A time of 0.001 to 86,400 seconds.
#[derive(Clone, Copy, Drop)]
pub struct Seconds<'a> {
    /// As the command line has it.
    pub word: &'a str,
    /// How many milliseconds it has.
    pub milliseconds: u64,
}

impl Seconds<'_> {
    /// The same time.
    pub fn duration(&self) -> Duration
        ensures { as_nanos result ≡ self.now.milliseconds * 1_000_000 }
    {
        Duration::from_millis(self.milliseconds)
    }
}

// As a message says it.
impl Display for Seconds<'_> {
    fn fmt<W: Write>(&self, f: &mut Formatter<W>) -> Result<(), Error> {
        let word = self.word;
        if word.bytes().any(|byte| byte.is_ascii_lowercase()) {
            write!(f, "{word}")
        } else {
            write!(f, "{word} s")
        }
    }
}

/// How often a script is run. One of the two bounds is there.
#[derive(Clone, Copy, Drop)]
pub struct Repeat {
    /// The most runs, 1 to 1,000,000, if there is such a number.
    pub times: Option<u64>,
    /// For how many milliseconds runs begin, 1 to 86,400,000, if there is such a time.
    pub time: Option<u64>,
    /// Whether there is a next run after one whose status isn't 0.
    pub keep_going: bool,
}

/// A run of a script against a server.
#[derive(Drop)]
pub struct RunArgs<'a> {
    /// The server, as HOST:PORT.
    pub server: &'a str,
    /// A's server, if it isn't P's.
    pub a: Option<&'a str>,
    /// B's server, if it isn't P's.
    pub b: Option<&'a str>,
    /// How an explanation is searched for.
    pub how: Search,
    /// How the branches meet.
    pub meeting: Meeting,
    /// The name that the script's keys are put under, if they are.
    pub name: Option<Namespace<'a>>,
    /// The longest that one connect to one address, one read or one write may take, if there is such a time.
    pub timeout: Option<Seconds<'a>>,
    /// How long a connect to each server may be tried again, if it may.
    pub wait: Option<Seconds<'a>>,
    /// How often the script is run, if that isn't once.
    pub repeat: Option<Repeat>,
    /// Whether each of several runs has connections of its own.
    pub reconnect: bool,
    /// Whether standard error doesn't say how many runs there were.
    pub quiet: bool,
    /// Whether standard error says at the end how requests were answered.
    pub stats: bool,
    /// Whether the output is JSON.
    pub json: bool,
    /// The maximum delay of a branch after the branches met, in microseconds; 0 disables it.
    pub spread: u16,
}

impl<'a> RunArgs<'a> {
    /// One run of a script against this server alone, with nothing else asked for.
    pub fn at(server: &'a str, how: Search) -> RunArgs<'a>
        ensures server { (result.server ≡ server.entry) × (result.a ≡ None) × (result.b ≡ None) }
        ensures how { result.how ≡ how }
        ensures once { (result.repeat ≡ None) × (result.name ≡ None) }
    {
        RunArgs {
            server,
            a: None,
            b: None,
            how,
            meeting: Meeting::Drawn,
            name: None,
            timeout: None,
            wait: None,
            repeat: None,
            reconnect: false,
            quiet: false,
            stats: false,
            json: false,
            spread: 0,
        }
    }

    /// The server of a section, as HOST:PORT.
    pub fn server_of(&self, section: Actor) -> &'a str
        ensures { result ≡ section_server section self.now.server self.now.a self.now.b }
    {
        match section {
            Actor::P => self.server,
            Actor::A => self.a.unwrap_or(self.server),
            Actor::B => self.b.unwrap_or(self.server),
        }
    }
}

/// A test of a server.
#[derive(Drop)]
pub struct TestArgs<'a> {
    /// The server and how it is met. Its `repeat` has the time of the test, if the line has one.
    pub run: RunArgs<'a>,
    /// What generated scripts are made of, if it isn't drawn.
    pub seed: Option<u64>,
    /// The races that are looked for, with commas between, if those aren't all.
    pub only: Option<&'a str>,
    /// The races that are left out, with commas between.
    pub skip: Option<&'a str>,
    /// The folder that the evidence is written to, if there is one.
    pub out: Option<&'a str>,
}

/// A server of the program's own.
#[derive(Clone, Copy, Drop, PartialEq, Eq)]
pub struct ServeArgs {
    /// The port of 127.0.0.1, or 0 for one that is free.
    pub port: u16,
    /// How many connections are served.
    pub connections: u64,
    /// Whether `incr` has a race.
    pub racy: bool,
}

/// A recording of what clients and a server say to each other.
#[derive(Drop)]
pub struct RecordArgs<'a> {
    /// The port of 127.0.0.1 on which clients are waited for, or 0 for one that is free.
    pub port: u16,
    /// The server, as HOST:PORT.
    pub server: &'a str,
    /// How many connections are handed on, if there is such a number.
    pub connections: Option<u64>,
    /// After how many milliseconds all connections are closed, 1 to 86,400,000, if there is such a time.
    pub time: Option<u64>,
    /// The file that the recording is written to, if it isn't the output.
    pub out: Option<&'a str>,
    /// Whether each key is judged meanwhile.
    pub judge: bool,
}

/// What the clients of each round send.
#[derive(Clone, Copy, Drop)]
pub struct StressPlan {
    /// How many clients there are, 2 to 64.
    pub clients: u64,
    /// How many requests each of them sends in a round, 1 to 1,000.
    pub requests: u64,
    /// How many keys they share, 1 to 16.
    pub keys: u64,
    /// Which verbs they send.
    pub mix: Mix,
    /// What the requests are made of, beside the numbers of the round and of the client.
    pub seed: u64,
}

/// Rounds of many clients against a server.
#[derive(Drop)]
pub struct StressArgs<'a> {
    /// The server, as HOST:PORT.
    pub server: &'a str,
    pub plan: StressPlan,
    /// The most rounds, 1 to 1,000,000, if there is such a number.
    pub rounds: Option<u64>,
    /// For how many milliseconds rounds begin, 1 to 86,400,000, if there is such a time.
    pub time: Option<u64>,
    /// Whether there is a next round after one that is unexplained, or in which a client failed.
    pub keep_going: bool,
    /// Whether all keys of an unexplained round are shown.
    pub whole: bool,
    /// Whether an unexplained key is shown without requests that changed nothing. All keys are shown whole.
    pub smallest: bool,
    /// The most turns of the search for each key, if the line names a limit.
    pub limit: Option<u64>,
    /// Whether the answer says why nothing explains a round.
    pub why: bool,
    /// The name that the keys are put under, if they are.
    pub name: Option<Namespace<'a>>,
    /// The longest that one connect to one address, one read or one write may take, if there is such a time.
    pub timeout: Option<Seconds<'a>>,
    /// How long a connect may be tried again, if it may.
    pub wait: Option<Seconds<'a>>,
    /// Whether standard error doesn't say how many rounds there were.
    pub quiet: bool,
    /// Whether standard error says at the end how requests were answered.
    pub stats: bool,
    /// Whether the output is JSON.
    pub json: bool,
}

/// What ends a campaign before its last job. One of the two bounds is there.
#[derive(Clone, Copy, Drop)]
pub struct Until {
    /// For how many milliseconds, 1 to 86,400,000, if there is such a time.
    pub time: Option<u64>,
    /// Until as many jobs are unexplained, 1 to 10,000, if there is such a number.
    pub unexplained: Option<u64>,
}

/// The jobs of a campaign.
#[derive(Clone, Copy, Drop)]
pub struct Plan {
    /// What the scripts of the jobs are made of, beside the jobs' numbers.
    pub seed: u64,
    /// Whether a seed is drawn in place of that one, and said.
    pub random_seed: bool,
    /// The number of the first job.
    pub first: u64,
    /// How many jobs there are; with `until`, at most.
    pub jobs: u64,
    /// How many of them run at once.
    pub workers: u32,
    /// The search for an explanation of one takes at most this many turns.
    pub limit: u64,
    /// Whether the report has no lines of jobs with which nothing was wrong. Of `brief`, `json` and `junit` one is set at most.
    pub brief: bool,
    /// Whether the report is JSON.
    pub json: bool,
    /// Whether the report is JUnit's XML.
    pub junit: bool,
    /// Whether the histories of unexplained jobs follow.
    pub show: bool,
    /// Whether each of them comes with why nothing explains it. Each search for that takes at most `limit` turns.
    pub why: bool,
    /// How often a smaller script is run, before it counts as explained.
    pub tries: u64,
    /// What ends it before its last job, if anything does.
    pub until: Option<Until>,
}

/// A campaign against a server.
#[derive(Drop)]
pub struct CampaignArgs<'a> {
    /// The server, as HOST:PORT.
    pub server: &'a str,
    /// A's server, if it isn't P's.
    pub a: Option<&'a str>,
    /// B's server, if it isn't P's.
    pub b: Option<&'a str>,
    pub plan: Plan,
    /// How the branches of each job meet.
    pub meeting: Meeting,
    /// The name that the keys of each job are put under, if they are.
    pub name: Option<Namespace<'a>>,
    /// The longest that one connect to one address, one read or one write may take, if there is such a time.
    pub timeout: Option<Seconds<'a>>,
    /// How long a connect to each server may be tried again, if it may.
    pub wait: Option<Seconds<'a>>,
    /// Whether each job has connections of its own.
    pub reconnect: bool,
    /// Whether standard error doesn't say how far the campaign is.
    pub quiet: bool,
    /// Whether standard error says at the end how requests were answered.
    pub stats: bool,
    /// The maximum delay of a branch of a job after the branches met, in microseconds; 0 disables it.
    pub spread: u16,
}

/// Whether the last of this many jobs, from the first on, has a number of 64 bits.
pub fn has_last(first: u64, jobs: u64) -> bool
    ensures { (result ≡ true) ↔ (first + jobs ≤ 2 ^ 64) }
{
    jobs == 0 || jobs - 1 <= u64::MAX - first
}
