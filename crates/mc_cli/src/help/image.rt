//! The topic `image`.

pub const IMAGE: &str =
    "An image is a script in bytes. `mcrace asm` writes one, and `mcrace check` reads
it. It begins with `MCR1`, or with `MCR2` if there are more than 32 flags or a
section has more than 64 instructions. Its templates are first a `delete` of
each key, with which P begins, and then the script's requests.

Places are instructions of a section, counted from 0. P begins with one delete
for each key. Each step is one instruction, and `>VAR` is one more. The last
instruction ends the section. Labels, blank lines and comments have no place:

  P                              0     the delete of `item`
  set item 0 =5                  1
                                 2     the end of P
  A
  gets item miss:gone >unique    0, 1  the request, and what `>unique` does
  cas item 0 =7 $unique          2
  gone:
                                 3     the end of A

Bytes that are no image are refused, as `refused image 2 Short byte 201`:
  1 Magic     the first bytes are neither `MCR1` nor `MCR2`
  2 Short     the image ends inside the field that begins here
  3 Range     a number or a key isn't within its limits, or the key stood before
  4 Template  the fields of the template that begins here don't suit each other
  5 Extra     the image has ended before this byte

`mcrace check` refuses an image for what a script's may be refused for, and for
faults that no script has, as `refused verify 3 NoHalt A 2`:
  1 BadTarget   a goto or a class doesn't lead to a later place of the section,
                or one that never answers the request leads on
  2 BadIndex    there is no such template or variable
  3 NoHalt      the section doesn't end with a halt; at 0 it may be empty
  4 NotCleared  here P must delete the key with the place's number, and go on
                to the next place
";
