//! How a picture looks: it has a ground of its own, so that it can be read on any page; dark colours on a screen whose reader wants them.

/// The rules for the classes of `svg`. Every width in a picture rests on a font whose characters are at most 8 units wide.
pub const STYLE: &str = "\
text{font:13px 'DejaVu Sans Mono',Menlo,Consolas,'Liberation Mono',monospace;fill:#1b1f24;pointer-events:none;
stroke:#fff;stroke-width:3px;stroke-linejoin:round;paint-order:stroke}
.ground{fill:#fff;stroke:#c4ccd4}
.head,.lane{font-weight:bold}
.time{stroke:#c4ccd4}
.bar{fill:#dbe7f5;stroke:#2f6299;stroke-width:1.5}
.wrong .bar{fill:#fde3e1;stroke:#b3261e;stroke-width:3;stroke-dasharray:7 4}
.cross{stroke:#b3261e;stroke-width:3.5}
.bad{font-weight:bold;fill:#b3261e}
.order{fill:none;stroke:#1b4b82;opacity:.55}
.mark{fill:#1b4b82}
.number{font-size:11px;font-weight:bold;fill:#fff;stroke:none;text-anchor:middle}
@media screen and (prefers-color-scheme:dark){
text{fill:#e6edf3;stroke:#0d1117}
.ground{fill:#0d1117;stroke:#30363d}
.time{stroke:#30363d}
.bar{fill:#1c2f45;stroke:#79b0ec}
.wrong .bar{fill:#471d1f;stroke:#ff8a80}
.cross{stroke:#ff8a80}
.bad{fill:#ff8a80}
.order{stroke:#a5d0ff}
.mark{fill:#a5d0ff}
.number{fill:#0d1117;stroke:none}
}
";
