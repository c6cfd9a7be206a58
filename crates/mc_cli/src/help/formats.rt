//! The topic `formats`.

pub const FORMATS: &str = "What mcrace reads and writes:

  script   what three clients send; see `mcrace help script`
           written by generate; read by run, asm, check and drive
  steps    a schedule for a script; see `mcrace help steps`
           follows the script that drive reads
  history  what was sent and answered; see `mcrace help history`
           written by run, and by campaign --show; read by judge
  image    a script in bytes; see `mcrace help image`
           written by asm; read by check

All are text of lines, but for images. An input has at most 1,048,576 bytes; but
a `history 3` has at most 67,108,864.
";
