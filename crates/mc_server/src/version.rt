//! A new version of an item that is there.
ghost use Rattle.std.specs.Prelude.{◌≡◌, ◌++◌, false, Some, OnOk, OnErr};
ghost use Rattle.std.specs.Option.{unwrap_or};
ghost use Rattle.mc_model.specs.Decide.{change_at, made_by};

use mc_model::{Change, Item, make_version};
use mc_protocol::{Bytes, OutOfMemory, Request};
use std::alloc::Global;
use std::mem;

/// Makes of an item the version that the change makes of it, with this `number`, if it makes one. Where the item's body has room for
/// what is put after it, it isn't copied. Want of memory leaves the item as it was.
pub(crate) fn renew(
    alloc: Global,
    item: &mut Item,
    request: &Request,
    change: Change,
    number: u64,
) -> Result<(), OutOfMemory>
    ensures ok { OnOk result (item.new ≡ unwrap_or (made_by (change_at request.now false number (Some item.old) change)) item.old) }
    ensures err { OnErr result (item.new ≡ item.old) }
{
    if change == Change::Appends {
        append(alloc, &mut item.body, request.body.as_slice())?;
        item.number = number;
    } else if let Some(made) = make_version(alloc, request, change, false, number, Some(item))? {
        *item = made;
    }
    Ok(())
}

/// Puts more bytes after a body.
fn append(alloc: Global, body: &mut Bytes, more: &[u8]) -> Result<(), OutOfMemory>
    ensures ok { OnOk result (body.new ≡ body.old ++ more.now) }
    ensures err { OnErr result (body.new ≡ body.old) }
{
    let mut bytes = mem::replace(body, Bytes::new(Vec::new(alloc))).into_vec();
    let appended = bytes.extend_from_slice(more);
    *body = Bytes::new(bytes);
    appended
}
