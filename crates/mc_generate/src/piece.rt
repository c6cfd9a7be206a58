//! The pieces of the branches of a generated script.
ghost use Rattle.std.specs.Prelude.{◌≡◌};
ghost use Rattle.mc_generate.specs.Outputs as outputs;
ghost use Rattle.mc_generate.specs.{Outputs.outputs_of, Pieces.piece_in};

use crate::draws::draw;
use rand_pcg::Lcg64Xsh32;

/// A piece of a branch: one request, or a `gets` and what follows it. A key is 0 or 1, and a body is the decimal of its number.
#[derive(Clone, Copy, Debug, PartialEq, Eq)]
pub(crate) enum Piece {
    Set { key: u8, body: u32 },
    Add { key: u8, body: u32 },
    Append { key: u8, body: u32 },
    Incr { key: u8, amount: u32 },
    Decr { key: u8, amount: u32 },
    Delete { key: u8 },
    /// It needs the flag.
    Get { key: u8 },
    /// A `gets` that binds the variable, a `cas` by that number, and a label, to which a miss goes.
    Swap { key: u8, body: u32 },
}

/// The piece that the generator's next outputs say.
pub(crate) fn draw_piece(generator: &mut Lcg64Xsh32) -> Piece
    ensures { (result, outputs_of generator.new) ≡ piece_in (outputs_of generator.old) }
{
    match draw(generator, 8) {
        0 => Piece::Set {
            key: draw_key(generator),
            body: draw(generator, 100),
        },
        1 => Piece::Add {
            key: draw_key(generator),
            body: draw(generator, 100),
        },
        2 => Piece::Append {
            key: draw_key(generator),
            body: draw(generator, 10),
        },
        3 => Piece::Incr {
            key: draw_key(generator),
            amount: 1 + draw(generator, 9),
        },
        4 => Piece::Decr {
            key: draw_key(generator),
            amount: 1 + draw(generator, 9),
        },
        5 => Piece::Delete {
            key: draw_key(generator),
        },
        6 => Piece::Get {
            key: draw_key(generator),
        },
        _ => Piece::Swap {
            key: draw_key(generator),
            body: draw(generator, 100),
        },
    }
}

/// A key, by the generator's next output.
fn draw_key(generator: &mut Lcg64Xsh32) -> u8
    ensures key { result ≡ outputs.draw 2 (outputs_of generator.old) }
    ensures rest { outputs_of generator.new ≡ outputs.rest (outputs_of generator.old) }
{
    draw(generator, 2) as u8
}
