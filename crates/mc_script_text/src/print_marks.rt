//! How the marks of a request are printed.

ghost use Rattle.std.specs.Prelude.{◌≡◌, ◌<◌, ◌≤◌, ◌==◌, ◌++◌, ◌∷◌, [], OnOk, length};
ghost use Rattle.std.specs.Int.{bit_at};
ghost use Rattle.mc_script.specs.declared.limits.TheConstants.{FLAGS_LIMIT};
ghost use Rattle.mc_script_text.specs.Marks as spec;
ghost use Rattle.mc_script_text.specs.PrintedScript as printed;

use crate::entry::Sign;
use mc_protocol::{Bytes, Class, OutOfMemory, append_all};
use mc_script::{Label, Mask, Names, Template};

/// The name with this index. A script has no index beyond its names.
pub(crate) fn name_at(names: &[Bytes], index: usize) -> &[u8]
    ensures { result.now ≡ printed.name_at names.now index }
{
    match names.get(index) {
        Some(name) => name.as_slice(),
        None => b"",
    }
}

/// The name of the label with this index. A script has no index beyond its labels.
pub(crate) fn label_at(labels: &[Label], index: usize) -> &[u8]
    ensures { result.now ≡ printed.label_at labels.now index }
{
    match labels.get(index) {
        Some(label) => label.name.as_slice(),
        None => b"",
    }
}

/// Appends the marks of a request, with a space before each.
pub(crate) fn print_marks(
    names: &Names,
    labels: &[Label],
    template: &Template,
    jumps: &[(Class, usize)],
    bind: Option<u8>,
    out: &mut Vec<u8>,
) -> Result<(), OutOfMemory>
    ensures { OnOk result (out.new.items ≡ out.old.items
        ++ printed.spaced_text (printed.mark_words names.now labels.now template.now jumps.now bind)) }
{
    print_all_flags(names.flags(), template, out)?;
    print_jumps(labels, jumps, out)?;
    print_bind(names, bind, out)
}

/// Appends the flags that the request needs and changes.
fn print_all_flags(
    names: &[Bytes],
    template: &Template,
    out: &mut Vec<u8>,
) -> Result<(), OutOfMemory>
    requires { length names.now ≤ FLAGS_LIMIT }
    ensures { OnOk result (out.new.items ≡ out.old.items
        ++ printed.spaced_text (printed.all_flag_words names.now template.now)) }
{
    print_flags(Sign::RequireSet, template.require_set, names, out)?;
    print_flags(Sign::RequireClear, template.require_clear, names, out)?;
    print_flags(Sign::Sets, template.sets, names, out)?;
    print_flags(Sign::Clears, template.clears, names, out)
}

/// Appends the flags of the mask after their sign, in the order of their declaration.
fn print_flags(
    sign: Sign,
    mask: Mask,
    names: &[Bytes],
    out: &mut Vec<u8>,
) -> Result<(), OutOfMemory>
    requires { length names.now ≤ FLAGS_LIMIT }
    ensures { OnOk result (out.new.items ≡ out.old.items
        ++ printed.spaced_text (printed.flag_words sign mask 0 names.now)) }
{
    'flags: for (flag, name) in names.iter().enumerate() {
        if has_flag(mask, flag) {
            print_flag(sign, name.as_slice(), out)?;
        }
    }
    Ok(())
}

/// Whether the flag is in the mask.
fn has_flag(mask: Mask, flag: usize) -> bool
    requires { flag < FLAGS_LIMIT }
    ensures { result ≡ (bit_at mask flag == 1) }
{
    mask & (1 << flag) != 0
}

/// Appends a space, the sign and the name of a flag.
fn print_flag(sign: Sign, name: &[u8], out: &mut Vec<u8>) -> Result<(), OutOfMemory>
    ensures { OnOk result (out.new.items ≡ out.old.items ++ 32 ∷ spec.sign_byte sign ∷ name.now) }
{
    out.extend_from_slice(spaced_sign(sign))?;
    out.extend_from_slice(name)
}

/// A space, and the byte before the name of a flag.
fn spaced_sign(sign: Sign) -> &'static [u8]
    ensures { result.now ≡ 32 ∷ spec.sign_byte sign ∷ [] }
{
    match sign {
        Sign::RequireSet => b" ?",
        Sign::RequireClear => b" !",
        Sign::Sets => b" +",
        Sign::Clears => b" -",
    }
}

/// Appends the jumps.
fn print_jumps(
    labels: &[Label],
    jumps: &[(Class, usize)],
    out: &mut Vec<u8>,
) -> Result<(), OutOfMemory>
    ensures { OnOk result (out.new.items ≡ out.old.items
        ++ printed.spaced_text (printed.jump_words labels.now jumps.now)) }
{
    'jumps: for (class, label) in jumps {
        print_jump(labels, *class, *label, out)?;
    }
    Ok(())
}

/// Appends a space and a jump.
fn print_jump(
    labels: &[Label],
    class: Class,
    label: usize,
    out: &mut Vec<u8>,
) -> Result<(), OutOfMemory>
    ensures { OnOk result (out.new.items ≡ out.old.items
        ++ 32 ∷ spec.jump_word class (printed.label_at labels.now label)) }
{
    out.extend_from_slice(b" ")?;
    out.extend_from_slice(class.word().as_bytes())?;
    append_all(out, &[b":", label_at(labels, label)])
}

/// Appends the variable that takes the number, if there is one.
fn print_bind(names: &Names, bind: Option<u8>, out: &mut Vec<u8>) -> Result<(), OutOfMemory>
    ensures { OnOk result (out.new.items ≡ out.old.items
        ++ printed.spaced_text (printed.bind_words names.now bind)) }
{
    match bind {
        Some(variable) => {
            let name = name_at(names.vars(), variable as usize);
            append_all(out, &[b" >", name])
        }
        None => Ok(()),
    }
}
