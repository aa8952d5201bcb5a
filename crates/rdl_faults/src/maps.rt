//! The faults of a map. tools/check-faults --write makes this file of docs/faults.txt.
ghost use Rattle.std.specs.Prelude.{codes, IfSome};
ghost use Rattle.rdl_faults.specs.Titles.{Titles};

fn e1() -> &'static str
    ensures { Titles (codes "E1") result.now }
{
    "E1 name twice
The body has two instances of one name, or two definitions of one name. A type and an instance may
share theirs.
Example: the map
    addrmap top {
        reg { field {} f; } a;
        reg { field {} g; } a;
    };
Cure: Give one of them another name. Of several alike write an array, `a[2]`.\n"
}

fn e2() -> &'static str
    ensures { Titles (codes "E2") result.now }
{
    "E2 unknown type
No definition of this type stands before the instance, in its body or in one around it. A misspelled
keyword is taken for a type, too, and so are words of SystemRDL that aren't in this profile, as
`posedge` in `posedge intr;`.
Example: the map
    reg status_t { field {} busy; };
    addrmap top { stat_t status; };
Cure: Write the name as it is defined, `status_t`, or put the definition before its first use.\n"
}

fn e3() -> &'static str
    ensures { Titles (codes "E3") result.now }
{
    "E3 kind not allowed here
A component of this kind can't stand in this body. Fields stand in registers; registers and register
files in register files and address maps; address maps in address maps; and the text itself has
definitions and no instances.
Example: the map
    addrmap top { field {} f; };
Cure: Put a register around the field: `reg { field {} f; } a;`.\n"
}

fn e4() -> &'static str
    ensures { Titles (codes "E4") result.now }
{
    "E4 unknown property
No property has this name. Properties that are defined by users aren't in this profile.
Example: the map
    addrmap top { reg { field { swr = r; } f; } a; };
Cure: Write the name of a property of the profile, here `sw`. Take out what isn't in it.\n"
}

fn e5() -> &'static str
    ensures { Titles (codes "E5") result.now }
{
    "E5 property not of this kind
A component of this kind hasn't this property: only a register has `regwidth`, and only a field has
`sw`.
Example: the map
    addrmap top { reg { sw = r; field {} f; } a; };
Cure: Set it where it belongs. For all fields of a register, or all inside a body, write a default:
`default sw = r;`.\n"
}

fn e6() -> &'static str
    ensures { Titles (codes "E6") result.now }
{
    "E6 wrong value
The property doesn't take this value. `regwidth` and `accesswidth` take 8, 16, 32, 64 and 128; `sw`
and `hw` take `rw`, `wr`, `r`, `w`, `rw1`, `w1` and `na`; `name` and `desc` take a string; most
others take `true` and `false`. A property without a value is `true`.
Example: the map
    addrmap top { reg { regwidth = 24; field {} f; } a; };
Cure: Write one of its values, here 32.\n"
}

fn e7() -> &'static str
    ensures { Titles (codes "E7") result.now }
{
    "E7 assigned twice
The body has given this property a value before: its own, as a default, or of the same target.
Example: the map
    addrmap top { reg { field { sw = r; sw = rw; } f; } a; };
Cure: Keep one of the two.\n"
}

fn e8() -> &'static str
    ensures { Titles (codes "E8") result.now }
{
    "E8 exclusive properties
The component has two of a group of which it can have one: `rclr`, `rset`, `onread`; or `woclr`,
`woset`, `onwrite`; or `we`, `wel`; or `swwe`, `swwel`.
Example: the map
    addrmap top { reg { field { rclr; onread = rset; } f; } a; };
Cure: Keep one of the two.\n"
}

fn e9() -> &'static str
    ensures { Titles (codes "E9") result.now }
{
    "E9 no such target before it
An assignment with `->` names an instance that doesn't stand before it in this body, or one that
isn't inside it.
Example: the map
    addrmap top {
        reg { field {} f; } a;
        a.g->reset = 1;
    };
Cure: Write the names of instances, not of types, from this body on, and the assignment after the
instance.\n"
}

fn e10() -> &'static str
    ensures { Titles (codes "E10") result.now }
{
    "E10 property not dynamic
This property can't be given a value from outside, by `->`.
Example: the map
    addrmap top {
        reg { field {} f; } a;
        a->regwidth = 64;
    };
Cure: Set it in the component's body, or by a default around it.\n"
}

fn e11() -> &'static str
    ensures { Titles (codes "E11") result.now }
{
    "E11 part not allowed here
An instance has a part that none of its kind takes: a field takes no `@`, `+=`, `%=`, `external`,
`internal` and second size; the others take no bits and no reset. `+=` needs a size, `@` and `%=`
don't stand together, and there are four sizes at most.
Example: the map
    addrmap top { reg { field {} f; } a[7:0]; };
Cure: Take the part out. An array of registers is `a[8]`; bits are those of a field.\n"
}

fn e12() -> &'static str
    ensures { Titles (codes "E12") result.now }
{
    "E12 number out of range
A number of an instance is too large, too small or of no use: a size of 0 or over 1,048,576
elements; an address over 2^40; a stride of 0 or over 2^40; a `%=` that is no power of two; a field
of 0 or over 65,536 bits; a high bit below the low one.
Example: the map
    addrmap top { reg { field {} f[0:7]; } a; };
Cure: Write a number in the range. Bits stand as `[high:low]`, here `[7:0]`.\n"
}

fn e13() -> &'static str
    ensures { Titles (codes "E13") result.now }
{
    "E13 no top
The text defines no address map outside all others, or none of the name that `--top` gives. The
place 1:1 stands for the whole map.
Example: the map
    reg status_t { field {} busy; };
Cure: Put `addrmap top { .. };` around the instances, or give `--top` a name that is there.\n"
}

fn e14() -> &'static str
    ensures { Titles (codes "E14") result.now }
{
    "E14 over 16 levels
A path from the top has over 16 names, with the top's. The message names the top.
Example: the map
    reg a { field {} f; };
    regfile b { a x; }; regfile c { b x; }; regfile d { c x; }; regfile e { d x; }; regfile g { e x; };
    regfile h { g x; }; regfile i { h x; }; regfile j { i x; }; regfile k { j x; }; regfile l { k x; };
    regfile m { l x; }; regfile n { m x; }; regfile o { n x; }; regfile p { o x; };
    addrmap top { p x; };
Cure: Take a level out: write an array or the instances themselves where a register file has one
instance alone.\n"
}

fn e15() -> &'static str
    ensures { Titles (codes "E15") result.now }
{
    "E15 over 65536 rows
The map has over 65,536 instances, its top and all fields counted. An array counts as one. The
message names the top.
Example: the map
    reg a { field {} a, b, c, d, e, f, g, h, i, j, k, l, m, n, o, p; };
    regfile b { a a, b, c, d, e, f, g, h, i, j, k, l, m, n, o, p; };
    regfile c { b a, b, c, d, e, f, g, h, i, j, k, l, m, n, o, p; };
    addrmap top { c a, b, c, d, e, f, g, h, i, j, k, l, m, n, o, p; };
Cure: Write arrays, `a[16]`, in the place of single instances, or part the map into several tops.\n"
}

fn e16() -> &'static str
    ensures { Titles (codes "E16") result.now }
{
    "E16 empty component
An instance of a register file or an address map has no instance inside.
Example: the map
    regfile block {};
    addrmap top { block a; };
Cure: Put a register in, or take the instance out.\n"
}

fn e17() -> &'static str
    ensures { Titles (codes "E17") result.now }
{
    "E17 map too large
The top has over 2^40 bytes. The message names the top.
Example: the map
    addrmap top { reg { field {} f; } a @ 0x10000000000; };
Cure: Look for an address or a stride with a digit too many.\n"
}

fn e18() -> &'static str
    ensures { Titles (codes "E18") result.now }
{
    "E18 accesswidth above regwidth
The `accesswidth` of a register is above its `regwidth`: more bits would be read at once than it
has.
Example: the map
    addrmap top { reg { accesswidth = 64; field {} f; } a; };
Cure: Make `accesswidth` smaller, or `regwidth` greater. A `default` of one of them may be the
cause.\n"
}

fn e19() -> &'static str
    ensures { Titles (codes "E19") result.now }
{
    "E19 stride below size
The elements of an array are larger than the bytes from one to the next.
Example: the map
    addrmap top { reg { field {} f; } a[4] += 2; };
Cure: Write a stride of at least the size of an element, here 4, or none: then they stand one after
the other.\n"
}

fn e20() -> &'static str
    ensures { Titles (codes "E20") result.now }
{
    "E20 address overlap
An instance has bytes that an earlier instance of the same component has too. The message names the
later of the two. Of an array all bytes from its first element to its last count, with those between
elements. Two registers at one address, one to read and one to write, are refused too.
Example: the map
    addrmap top {
        reg { field {} f; } a @ 0x10;
        reg { field {} g; } b @ 0x12;
    };
Cure: Give one of them another `@`, or none: then it starts at the next free address. `list` shows
where the others stand. For a register that is read and written in two ways write one register, with
a field `sw = r` and a field `sw = w` on the same bits.\n"
}

fn e21() -> &'static str
    ensures { Titles (codes "E21") result.now }
{
    "E21 field past register
A field has a bit that its register hasn't.
Example: the map
    addrmap top { reg { field {} f[39:32]; } a; };
Cure: Write lower bits, or a greater `regwidth`. Fields without bits follow one another: an earlier
one may be too wide.\n"
}

fn e22() -> &'static str
    ensures { Titles (codes "E22") result.now }
{
    "E22 field overlap
Two fields have a bit in common. The message names the later of the two. Only a field with `sw = r`
and one with `sw = w` or `w1` may.
Example: the map
    addrmap top { reg { field {} f[7:4]; field {} g[5:5]; } a; };
Cure: Write other bits, or `sw = r` in one and `sw = w` in the other.\n"
}

fn e23() -> &'static str
    ensures { Titles (codes "E23") result.now }
{
    "E23 reset too wide
The value after a reset doesn't fit the bits of the field.
Example: the map
    addrmap top { reg { field {} f[4] = 16; } a; };
Cure: Write a smaller number or more bits. The reset may come from a default or an assignment with
`->`.\n"
}

fn e25() -> &'static str
    ensures { Titles (codes "E25") result.now }
{
    "E25 description too large
The edited map would be nested deeper than 16, or have over 65,536 items or some 8,000,000 bytes of
names and strings.
Example: the map
    addrmap a { addrmap b { addrmap c { addrmap d { addrmap e { addrmap f { addrmap g { addrmap h {
    addrmap i { addrmap j { addrmap k { addrmap l { addrmap m { addrmap n { addrmap o { reg p {
    }; }; }; }; }; }; }; }; }; }; }; }; }; }; }; };
and the script
    add /$a/$b/$c/$d/$e/$f/$g/$h/$i/$j/$k/$l/$m/$n/$o/$p last field {} f;
Cure: Define inner parts at the front, by names, and use arrays.\n"
}

/// The entry of the fault of this number, if it is one of these.
pub(crate) fn explained(number: &str) -> Option<&'static str>
    ensures { IfSome result (λ text. Titles number.now text.now) }
{
    match number {
        "E1" => Some(e1()),
        "E2" => Some(e2()),
        "E3" => Some(e3()),
        "E4" => Some(e4()),
        "E5" => Some(e5()),
        "E6" => Some(e6()),
        "E7" => Some(e7()),
        "E8" => Some(e8()),
        "E9" => Some(e9()),
        "E10" => Some(e10()),
        "E11" => Some(e11()),
        "E12" => Some(e12()),
        "E13" => Some(e13()),
        "E14" => Some(e14()),
        "E15" => Some(e15()),
        "E16" => Some(e16()),
        "E17" => Some(e17()),
        "E18" => Some(e18()),
        "E19" => Some(e19()),
        "E20" => Some(e20()),
        "E21" => Some(e21()),
        "E22" => Some(e22()),
        "E23" => Some(e23()),
        "E25" => Some(e25()),
        _ => None,
    }
}
