//! Prints the replies that would be explained.
ghost use Rattle.std.specs.Prelude.{◌≡◌, ◌++◌, codes, IfOk, None, OnOk};
ghost use Rattle.std.specs.List.{flat_map};
ghost use Rattle.mc_why.specs.WhyText as texts;

use crate::Form;
use mc_protocol::{Bytes, OutOfMemory, Reply};
use mc_words::print_reply_words;
use std::alloc::Global;

/// Appends a line for each form.
pub(crate) fn print_forms(forms: &[Form], out: &mut Vec<u8>) -> Result<(), OutOfMemory>
    ensures { OnOk result (out.new.items ≡ out.old.items ++ flat_map texts.form_text forms.now) }
{
    'forms: for form in forms {
        print_form(form, out)?;
    }
    Ok(())
}

// Appends the line of a form.
fn print_form(form: &Form, out: &mut Vec<u8>) -> Result<(), OutOfMemory>
    ensures { OnOk result (out.new.items ≡ out.old.items ++ texts.form_text form.now) }
{
    out.extend_from_slice(b"explained would be ")?;
    print_form_words(form, out)?;
    out.extend_from_slice(b"\n")
}

// Appends the words of a form.
fn print_form_words(form: &Form, out: &mut Vec<u8>) -> Result<(), OutOfMemory>
    ensures { OnOk result (out.new.items ≡ out.old.items ++ texts.form_words form.now) }
{
    match form {
        Form::Reply(reply) => print_reply_words(reply, out),
        Form::NewNumber { flags, body, .. } => print_new(*flags, body, out),
    }
}

// Appends the words of a hit with a new number.
fn print_new(flags: u32, body: &Bytes, out: &mut Vec<u8>) -> Result<(), OutOfMemory>
    ensures { OnOk result (out.new.items ≡ out.old.items ++ texts.new_words flags body.now) }
{
    let hit = hit_of(*out.allocator(), flags, body)?;
    print_reply_words(&hit, out)?;
    print_mark(out)
}

// Appends that the number is new.
fn print_mark(out: &mut Vec<u8>) -> Result<(), OutOfMemory>
    ensures { OnOk result (out.new.items ≡ out.old.items ++ codes " (a new number)") }
{
    out.extend_from_slice(b" (a new number)")
}

fn hit_of(alloc: Global, flags: u32, body: &Bytes) -> Result<Reply, OutOfMemory>
    ensures { IfOk result (λ hit. hit ≡ Reply.Hit flags body.now None) }
{
    Ok(Reply::Hit {
        flags,
        body: body.copy(alloc)?,
        cas: None,
    })
}
