//! The tables of one script's code, beside what was worked out by hand.
ghost use Rattle.std.specs.Prelude.{IfOk};
ghost use Rattle.mc_protocol.specs.{declared.actor.Actor.Actor as Section, Sections.section_of};
ghost use Rattle.mc_code.specs.Code.{IsCode};
ghost use Rattle.mc_flow.specs.{CostTables.AreCostTables, FlagTables.AreFlagTables, RunKinds.AreKindTables};
ghost use Rattle.mc_sound.specs.Structure.{IsStructured};

use mc_assembler::assemble;
use mc_code::{Code, Kind};
use mc_flow::{CostTables, FlagTables, KindTables, all_flag_tables, all_kind_tables, kind_index};
use mc_protocol::{Actor, OutOfMemory, Sections};
use mc_script_text::parse;
use mc_verify::{Checked, Refusal, RefusalKind, verify};
use std::alloc::{AllocError, Global};
use std::test::Fail;

/// Two facts at a place, if there is one.
type Pair = Option<(bool, bool)>;

/// What tables have: of kinds and of flags at two places each, and the requests and the bytes of P, A and B at most.
type Found = ([Pair; 2], [Pair; 2], [(u32, u32); 3]);

/// A gets a cas unique, binds it, and sends it; after a miss it is done. P sets the flag by its second request.
const SCRIPT: &[u8] =
    b"script 1\nkeys item\nflags ready\nvars unique\nbudget P 2 100\nbudget A 2 100\nbudget B 1 100\n\
    P\nset item 0 =5 +ready\nA\ngets item miss:gone >unique\ncas item 0 =7 $unique\ngone:\nB\nincr item 1\nend\n";

#[test]
fn has_what_leads_there(rt: HostRuntime) -> Result<(), Fail> {
    let kinds = [Some((false, true)), Some((true, true))];
    let values = [Some((false, true)), Some((true, false))];
    let costs = [(2, 32), (2, 51), (1, 13)];
    assert_eq!(rt; found(rt.alloc())?, Some((kinds, values, costs)));
    Ok(())
}

fn found(alloc: Global) -> Result<Option<Found>, Fail> {
    let answer = verify(alloc, code(alloc)?);
    found_of(alloc, &answer)
}

/// Want of memory is an error.
fn found_of(
    alloc: Global,
    answer: &Result<Checked, (Refusal, Code)>,
) -> Result<Option<Found>, Fail> {
    match answer {
        Ok(checked) => Ok(Some(found_in(alloc, checked.code())?)),
        Err((refusal, _)) if refusal.kind == RefusalKind::OutOfMemory => Err(AllocError)?,
        Err(_) => Ok(None),
    }
}

fn found_in(alloc: Global, code: &Code) -> Result<Found, OutOfMemory>
    requires { (actor : Section) → IsStructured code.now actor }
{
    let kinds = [kinds_at(alloc, code, 2)?, kinds_at(alloc, code, 3)?];
    let before = values_at(alloc, code, Actor::P, 1)?;
    let after = values_at(alloc, code, Actor::B, 0)?;
    Ok((kinds, [before, after], costs_of(alloc, code)?))
}

/// The tables of kinds. A call that finds no memory is made once more, as those of the other tables are.
fn kind_tables(alloc: Global, code: &Code) -> Result<Sections<KindTables>, OutOfMemory>
    requires { (actor : Section) → IsStructured code.now actor }
    ensures { IfOk result (λ tables. (actor : Section) → AreKindTables code.now actor (section_of tables actor)) }
{
    match all_kind_tables(alloc, code) {
        Err(AllocError) => all_kind_tables(alloc, code),
        tables => tables,
    }
}

fn flag_tables(alloc: Global, code: &Code) -> Result<FlagTables, OutOfMemory>
    requires { (actor : Section) → IsStructured code.now actor }
    ensures { IfOk result (AreFlagTables code.now) }
{
    match all_flag_tables(alloc, code) {
        Err(AllocError) => all_flag_tables(alloc, code),
        tables => tables,
    }
}

fn cost_tables(alloc: Global, code: &Code) -> Result<CostTables, OutOfMemory>
    requires { (actor : Section) → IsStructured code.now actor }
    ensures exact { IfOk result (AreCostTables code.now) }
    ensures kept { IsCode code.now }
{
    match CostTables::new(alloc, code) {
        Err(AllocError) => CostTables::new(alloc, code),
        tables => tables,
    }
}

/// Whether the variable may have no number, and whether it may have the cas unique of the key, at the place of A.
fn kinds_at(alloc: Global, code: &Code, place: usize) -> Result<Pair, OutOfMemory>
    requires { (actor : Section) → IsStructured code.now actor }
{
    let tables = kind_tables(alloc, code)?;
    if code.vars() == 0 || place >= code.section(Actor::A).len() {
        return Ok(None);
    }
    let kinds = tables.a.at(0, place).own_kinds();
    let bound = kinds.contains(kind_index(Kind::Cas(0)));
    Ok(Some((kinds.contains(kind_index(Kind::Unbound)), bound)))
}

/// Whether the flag may be set, and whether it may be clear, at the place of the section.
fn values_at(alloc: Global, code: &Code, actor: Actor, place: usize) -> Result<Pair, OutOfMemory>
    requires { (actor : Section) → IsStructured code.now actor }
{
    let tables = flag_tables(alloc, code)?;
    if place >= code.section(actor).len() {
        return Ok(None);
    }
    let values = tables.values_at(code, actor, place);
    Ok(Some((values.may_be(0, true), values.may_be(0, false))))
}

fn costs_of(alloc: Global, code: &Code) -> Result<[(u32, u32); 3], OutOfMemory>
    requires { (actor : Section) → IsStructured code.now actor }
{
    let tables = cost_tables(alloc, code)?;
    let p = tables.greatest(code, Actor::P);
    let a = tables.greatest(code, Actor::A);
    let b = tables.greatest(code, Actor::B);
    Ok([
        (p.requests, p.bytes),
        (a.requests, a.bytes),
        (b.requests, b.bytes),
    ])
}

fn code(alloc: Global) -> Result<Code, Fail> {
    let script = parse(alloc, SCRIPT)?;
    Ok(assemble(alloc, &script)?)
}
