//! Pictures as SVG.

use mc_draw::{Drawing, Form, draw};
use mc_protocol::OutOfMemory;
use std::alloc::Global;
use std::test::Fail;

// The first bar begins at 48. It is as wide as `NOT_FOUND`, nine columns of 8, and its mark stands in its middle. The second one begins 16
// later, and goes on 16 beyond its 14 columns, since it has no end; it has no mark.
static TEXTS: [(&str, &[&str]); 2] = [
    (
        "history 2\nP begin delete a\nP reply NOT_FOUND\nP begin set a 0 =<%0a&\nend\n",
        &[
            "<title id=\"title\">explained: an order of these requests gives these replies</title>\n",
            "\n2  P  set a 0 =&lt;%0a&amp;  no reply\n",
            "<text class=\"lane\" x=\"16\" y=\"96\">P</text>\n",
            "<g class=\"right\"><title>P delete a: NOT_FOUND</title><path class=\"bar\" d=\"M120 80H48V102H120Z\"/></g>\n",
            "<title>P set a 0 =&lt;%0a&amp;: no reply</title><path class=\"bar\" d=\"M264 80H136V102H264\"/></g>\n",
            "<polyline class=\"order\" points=\"84 91 \"/>\n",
            "<circle class=\"mark\" cx=\"84\" cy=\"91\" r=\"10\"/><text class=\"number\" x=\"84\" y=\"95\">1</text>\n",
            "<text class=\"request\" x=\"48\" y=\"75\">delete a</text>\n",
            "<text class=\"reply\" x=\"48\" y=\"119\">NOT_FOUND</text>\n",
        ],
    ),
    (
        "history 1\nP delete a -> NOT_FOUND\nA get a -> HIT 0 =1\nend\n",
        &[
            "<title id=\"title\">unexplained: no order of these requests gives these replies</title>\n",
            "<g class=\"wrong\"><title>A get a: HIT 0 =1</title>",
            "<path class=\"cross\" ",
            "<text class=\"bad\" ",
            ">answers MISS</text>\n",
            "</svg>\n",
        ],
    ),
];

fn has_all(text: &[u8], parts: &[&str]) -> bool {
    parts.iter().all(|part| has(text, part.as_bytes()))
}

fn has(text: &[u8], part: &[u8]) -> bool {
    (0..text.len()).any(|start| text.split_at(start.min(text.len())).1.starts_with(part))
}

fn are_drawn(alloc: Global) -> Result<bool, OutOfMemory> {
    'texts: for (text, parts) in &TEXTS {
        match draw(alloc, text.as_bytes(), Form::Svg, 1_000_000, None)? {
            Drawing::Drawn(picture) if has_all(picture.as_slice(), parts) => {}
            _ => return Ok(false),
        }
    }
    Ok(true)
}

#[test]
fn draws_bars_and_marks(rt: HostRuntime) -> Result<(), Fail> {
    assert!(rt; are_drawn(rt.alloc())?);
    Ok(())
}
