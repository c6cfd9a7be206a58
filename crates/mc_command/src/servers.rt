//! Which servers a line names, and within which times.
ghost use Rattle.std.specs.Prelude.{◌≡◌};

use mc_cli::{CampaignArgs, RunArgs, Seconds};
use mc_connect::Servers;
use std::time::Duration;

/// The servers of a run, and its times.
pub fn servers_of<'a>(target: &RunArgs<'a>) -> Servers<'a>
    ensures { (result.server ≡ target.now.server) × (result.a ≡ target.now.a) × (result.b ≡ target.now.b) }
{
    Servers {
        server: target.server,
        a: target.a,
        b: target.b,
        timeout: duration_of(target.timeout),
        wait: duration_of(target.wait),
    }
}

/// The servers of a campaign's jobs, and its times.
pub fn campaign_servers<'a>(target: &CampaignArgs<'a>) -> Servers<'a>
    ensures { (result.server ≡ target.now.server) × (result.a ≡ target.now.a) × (result.b ≡ target.now.b) }
{
    let (timeout, wait) = (duration_of(target.timeout), duration_of(target.wait));
    let mut servers = Servers::one(target.server, timeout, wait);
    servers.a = target.a;
    servers.b = target.b;
    servers
}

/// The time, if there is one.
pub fn duration_of(time: Option<Seconds<'_>>) -> Option<Duration> {
    time.map(|time| time.duration())
}
