//! How the lines of a section are printed.

ghost use Rattle.std.specs.Prelude.{◌≡◌, ◌++◌, ◌∷◌, OnOk};
ghost use Rattle.mc_protocol.specs.Fields.{fields_of};
ghost use Rattle.mc_script_text.specs.ScriptText.{section_line};
ghost use Rattle.mc_script_text.specs.PrintedScript as printed;

use crate::print_marks::{label_at, name_at, print_marks};
use itoa::Buffer;
use mc_protocol::{Actor, Class, Fields, OutOfMemory, append_all};
use mc_script::{Argument, Label, Names, Section, Step, Template};

/// Appends a section: the line that names it, and its lines.
pub(crate) fn print_section(
    names: &Names,
    actor: Actor,
    section: &Section,
    out: &mut Vec<u8>,
) -> Result<(), OutOfMemory>
    ensures { OnOk result (out.new.items ≡ out.old.items
        ++ printed.lines_text (section_line actor ∷ printed.section_lines names.now section.now)) }
{
    append_all(out, &[actor.word().as_bytes(), b"\n"])?;
    print_steps(names, &section.labels, &section.steps, out)
}

/// Appends the steps, with the labels of its place before each, and the labels of the end.
fn print_steps(
    names: &Names,
    labels: &[Label],
    steps: &[Step],
    out: &mut Vec<u8>,
) -> Result<(), OutOfMemory>
    ensures { OnOk result (out.new.items ≡ out.old.items
        ++ printed.lines_text (printed.step_lines names.now labels.now 0 steps.now)) }
{
    'steps: for (place, step) in steps.iter().enumerate() {
        print_labels(place, labels, out)?;
        print_step(names, labels, step, out)?;
    }
    print_labels(steps.len(), labels, out)
}

/// Appends the labels of this place.
fn print_labels(place: usize, labels: &[Label], out: &mut Vec<u8>) -> Result<(), OutOfMemory>
    ensures { OnOk result (out.new.items ≡ out.old.items ++ printed.lines_text (printed.label_lines place labels.now)) }
{
    'labels: for label in labels {
        if label.place == place {
            append_all(out, &[label.name.as_slice(), b":\n"])?;
        }
    }
    Ok(())
}

/// Appends the line of a step.
fn print_step(
    names: &Names,
    labels: &[Label],
    step: &Step,
    out: &mut Vec<u8>,
) -> Result<(), OutOfMemory>
    ensures { OnOk result (out.new.items ≡ out.old.items
        ++ printed.line_text (printed.step_words names.now labels.now step.now)) }
{
    match step {
        Step::Send {
            template,
            jumps,
            bind,
        } => print_request(names, labels, template, jumps.as_slice(), *bind, out),
        Step::Bind(variable) => {
            let name = name_at(names.vars(), *variable as usize);
            append_all(out, &[b"bind ", name, b"\n"])
        }
        Step::Goto(label) => append_all(out, &[b"goto ", label_at(labels, *label), b"\n"]),
        Step::Halt => out.extend_from_slice(b"halt\n"),
    }
}

/// Appends the line of a request.
fn print_request(
    names: &Names,
    labels: &[Label],
    template: &Template,
    jumps: &[(Class, usize)],
    bind: Option<u8>,
    out: &mut Vec<u8>,
) -> Result<(), OutOfMemory>
    ensures { OnOk result (out.new.items ≡ out.old.items
        ++ printed.line_text (printed.request_words names.now labels.now template.now jumps.now bind)) }
{
    let key = name_at(names.keys(), template.key as usize);
    out.extend_from_slice(template.verb.word().as_bytes())?;
    append_all(out, &[b" ", key])?;
    print_item(template, out)?;
    print_argument(names, template.argument, out)?;
    print_marks(names, labels, template, jumps, bind, out)?;
    out.extend_from_slice(b"\n")
}

/// Appends the flags and the body, where the verb has them, with a space before each.
fn print_item(template: &Template, out: &mut Vec<u8>) -> Result<(), OutOfMemory>
    ensures { OnOk result (out.new.items ≡ out.old.items ++ printed.spaced_text
        (printed.item_words (fields_of template.now.verb) template.now.flags template.now.body)) }
{
    match template.verb.fields() {
        Fields::Item | Fields::Swap => {
            let mut flags_text = Buffer::new();
            let flags = flags_text.format(template.flags).as_bytes();
            append_all(out, &[b" ", flags, b" =", template.body.as_slice()])
        }
        Fields::KeyAlone | Fields::Expiry | Fields::Amount => Ok(()),
    }
}

/// Appends a space and the number or the variable, if there is one.
fn print_argument(names: &Names, argument: Argument, out: &mut Vec<u8>) -> Result<(), OutOfMemory>
    ensures { OnOk result (out.new.items ≡ out.old.items
        ++ printed.spaced_text (printed.argument_words names.now argument)) }
{
    match argument {
        Argument::Nothing => Ok(()),
        Argument::Number(number) => {
            let mut number_text = Buffer::new();
            append_all(out, &[b" ", number_text.format(number).as_bytes()])
        }
        Argument::Variable(variable) => {
            let name = name_at(names.vars(), variable as usize);
            append_all(out, &[b" $", name])
        }
    }
}
