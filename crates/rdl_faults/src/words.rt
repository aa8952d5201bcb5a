//! The faults of the words and statements of a text. tools/check-faults --write makes this file of docs/faults.txt.
ghost use Rattle.std.specs.Prelude.{codes, IfSome};
ghost use Rattle.rdl_faults.specs.Titles.{Titles};

fn s1() -> &'static str
    ensures { Titles (codes "S1") result.now }
{
    "S1 bad character
Here begins no word, blank or comment of the language. `#(`, `*`, a backquote as in `` `include ``,
curly quotes and a byte order mark are such; so is text that isn't UTF-8, in comments and strings
too.
Example: the map
    `include \"types.rdl\"
    addrmap top { reg { field {} f; } a; };
Cure: Take it out. There are no includes, parameters and expressions: write the parts into one file,
and numbers as numbers.\n"
}

fn s2() -> &'static str
    ensures { Titles (codes "S2") result.now }
{
    "S2 unended comment
A `/*` has no `*/` after it. The message names the place of the `/*`.
Example: the map
    addrmap top { /* one register
        reg { field {} f; } a; };
Cure: Write `*/` where the comment ends. Comments don't nest: the first `*/` ends it.\n"
}

fn s3() -> &'static str
    ensures { Titles (codes "S3") result.now }
{
    "S3 unended string
A string has no closing quote. The message names the place of its first quote.
Example: the map
    addrmap top { name = \"Serial port; reg { field {} f; } a; };
Cure: Write the closing quote. A quote inside a string is `\\\"`.\n"
}

fn s4() -> &'static str
    ensures { Titles (codes "S4") result.now }
{
    "S4 number over 128 bits
A number is two to the power of 128, or more.
Example: the map
    addrmap top { reg { field {} f = 0x100000000000000000000000000000000; } a; };
Cure: Write a smaller number. The widest register has 128 bits.\n"
}

fn s5() -> &'static str
    ensures { Titles (codes "S5") result.now }
{
    "S5 Verilog value does not fit its width
In a number such as `4'hF` the digit in front says how many bits it has, and the value needs more.
Example: the map
    addrmap top { reg { field {} f[3] = 2'h4; } a; };
Cure: Write a greater width, as `3'h4`, or the number without one, as `4` or `0x4`.\n"
}

fn s6() -> &'static str
    ensures { Titles (codes "S6") result.now }
{
    "S6 Verilog width out of range
The width in front of the `'` is 0 or over 128.
Example: the map
    addrmap top { reg { field {} f = 0'b0; } a; };
Cure: Write a width from 1 to 128, or the number without one.\n"
}

fn s7() -> &'static str
    ensures { Titles (codes "S7") result.now }
{
    "S7 identifier too long
A name has over 255 bytes.
Example: the map
    addrmap top { reg { field {} f; } nnnnnnnnnnnnnnnnnnnnnnnnnnnnnnnnnnnnnnnnnnnnnnnnnnnnnnnnnnnnnnnnnnnnnnnnnnnnnnnnnnnnnnnnnnnnnnnnnnnnnnnnnnnnnnnnnnnnnnnnnnnnnnnnnnnnnnnnnnnnnnnnnnnnnnnnnnnnnnnnnnnnnnnnnnnnnnnnnnnnnnnnnnnnnnnnnnnnnnnnnnnnnnnnnnnnnnnnnnnnnnnnnnnnnnnnnnnnnnnnnnnnnnnnnnnnnnnn; };
Cure: Write a shorter name.\n"
}

fn s9() -> &'static str
    ensures { Titles (codes "S9") result.now }
{
    "S9 unexpected word
No text of the language goes on with this word. Most often a `;` is missing before it, or a part of
an instance stands in another order than `[size] = reset @ address += stride %= alignment`. Words of
SystemRDL that aren't in this profile, as `enum`, `signal`, `mem` and `struct`, are refused in this
way too, and reserved words as names.
Example: the map
    addrmap top {
        reg { field {} f; } a
        reg { field {} g; } b;
    };
Cure: Look at the word, and at the end of the statement before it: here a `;` is missing after `a`.\n"
}

fn s10() -> &'static str
    ensures { Titles (codes "S10") result.now }
{
    "S10 unexpected end
The text ends inside a statement: a `}` or a `;` is missing.
Example: the map
    addrmap top { reg { field {} f; } a; }
Cure: Write what is missing. A definition, too, ends with `;`, here after the last `}`.\n"
}

fn s11() -> &'static str
    ensures { Titles (codes "S11") result.now }
{
    "S11 nesting over 16
Seventeen `{` are open at once.
Example: the map
    addrmap a { addrmap b { addrmap c { addrmap d { addrmap e { addrmap f { addrmap g { addrmap h {
    addrmap i { addrmap j { addrmap k { addrmap l { addrmap m { addrmap n { addrmap o { addrmap p {
    addrmap q {}; }; }; }; }; }; }; }; }; }; }; }; }; }; }; }; };
Cure: Define the inner parts at the front, each by a name, and write their instances by that name.\n"
}

fn s12() -> &'static str
    ensures { Titles (codes "S12") result.now }
{
    "S12 description too large
The statements up to here have over 65,536 items, or names and strings of some 8,000,000 bytes. A
body without a name is copied for each instance that stands after it, and each copy counts.
Example: the map
    addrmap top {
        regfile { regfile { regfile { reg {} a, b, c, d, e, f, g, h, i, j, k, l, m, n, o, p;
        } a, b, c, d, e, f, g, h, i, j, k, l, m, n, o, p; } a, b, c, d, e, f, g, h, i, j, k, l, m, n, o, p;
        } a, b, c, d, e, f, g, h, i, j, k, l, m, n, o, p;
    };
Cure: Give the body a name, `regfile block { .. };`, and write `block a, b;`: then it counts once.
An array, `a[16]`, is one item.\n"
}

fn s13() -> &'static str
    ensures { Titles (codes "S13") result.now }
{
    "S13 text too long
A text has over 67,108,864 bytes. Of a file the programs say `input too long` instead.
Example: none, as it would have 64 MiB
Cure: Part the map into several, each with a top of its own.\n"
}

/// The entry of the fault of this number, if it is one of these.
pub(crate) fn explained(number: &str) -> Option<&'static str>
    ensures { IfSome result (λ text. Titles number.now text.now) }
{
    match number {
        "S1" => Some(s1()),
        "S2" => Some(s2()),
        "S3" => Some(s3()),
        "S4" => Some(s4()),
        "S5" => Some(s5()),
        "S6" => Some(s6()),
        "S7" => Some(s7()),
        "S9" => Some(s9()),
        "S10" => Some(s10()),
        "S11" => Some(s11()),
        "S12" => Some(s12()),
        "S13" => Some(s13()),
        _ => None,
    }
}
