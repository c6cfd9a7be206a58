//! The lanes of a run over its connections.
ghost use Rattle.std.specs.Prelude.{◌≡◌, false};
ghost use Rattle.mc_lane.specs.Streams.{silent, no_counts};
ghost use Rattle.mc_run.specs.Running.{AreNew, IsNew};

use mc_campaign::RECEIVED_LIMIT;
use mc_connect::{Connection, Socket};
use mc_lane::{Lane, Stream, Wire};
use mc_protocol::Sections;
use mc_run::Lanes;
use std::alloc::Global;

/// A new lane of each section, over its connection.
pub fn new_lanes<C: Connection>(alloc: Global, connections: Sections<C>) -> Lanes<Wire<Socket<C>>>
    ensures new { AreNew result }
    ensures limits { (result.p.limit ≡ 262144) × (result.a.limit ≡ 262144) × (result.b.limit ≡ 262144) }
{
    let Sections { p, a, b } = connections;
    Lanes {
        p: new_lane(alloc, p),
        a: new_lane(alloc, a),
        b: new_lane(alloc, b),
    }
}

fn new_lane<C: Connection>(alloc: Global, connection: C) -> Lane<Wire<Socket<C>>>
    ensures new { IsNew result }
    ensures limit { result.limit ≡ 262144 }
{
    let wire = Wire::new(Socket::new(connection));
    Lane::new(alloc, wire, RECEIVED_LIMIT)
}

/// Closes the lanes, and takes out what they read and wrote over.
pub fn take_sockets<C: Connection>(
    lanes: &mut Lanes<Wire<Socket<C>>>,
) -> Sections<Option<Socket<C>>> {
    Sections {
        p: take_socket(&mut lanes.p),
        a: take_socket(&mut lanes.a),
        b: take_socket(&mut lanes.b),
    }
}

fn take_socket<C: Connection>(lane: &mut Lane<Wire<Socket<C>>>) -> Option<Socket<C>> {
    Some(lane.close()?.into_inner())
}
