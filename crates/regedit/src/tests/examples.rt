//! Two maps of the folder `examples` with their scripts, whose texts stand here again. What they print, and their headers, are
//! cases of the crate `cases`, where the third one stands, too.
use super::{Written, write};
use std::alloc::Global;
use std::process::Abort;
use std::test::Fail;

const UART: &str = "// A serial port with FIFOs of 16 bytes, as its firmware sees it.

// The sources of its interrupt. Three registers have this form.
reg interrupts {
    field { desc = \"Room in the transmit FIFO\"; } tx_ready;
    field { desc = \"A byte in the receive FIFO\"; } rx_ready;
    field { desc = \"A byte was lost\"; } overrun;
    field { desc = \"A stop bit was missing\"; } framing;
};

addrmap uart {
    name = \"Serial port\";
    default hw = r;

    reg {
        // What is written is sent, and what is read was received: the same bits.
        field { sw = w; } tx[7:0];
        field { sw = r; hw = w; } rx[7:0];
    } data;

    reg {
        default sw = r;
        default hw = w;
        field {} tx_full;
        field {} tx_empty = 1;
        field {} rx_full;
        field {} rx_empty = 1;
        field {} tx_level[12:8];
        field {} rx_level[20:16];
    } status;

    reg {
        field {} enable;
        field {} loopback;
        field { desc = \"A character has 5 to 8 bits\"; } length[5:4] = 3;
        field { desc = \"None, odd or even\"; } parity[7:6];
        field {} two_stop_bits;
    } control;

    reg {
        field {} fraction[4];
        field {} divisor[16] = 0x1B;
    } baud;

    interrupts enabled @ 0x20;
    interrupts pending;
    interrupts forced;
    enabled.overrun->reset = 1;
    pending.tx_ready->woclr;
    pending.rx_ready->woclr;
    pending.overrun->woclr;
    pending.framing->woclr;
};
";

const UART_SCRIPT: &str = "# The port as it is.
list
# A watermark of each FIFO, in the gap behind the baud rate.
add /$uart last reg { field {} tx[4:0] = 8; field {} rx[12:8] = 8; } watermark @ 0x10;
# A fifth source, in all three interrupt registers at once.
add /$interrupts last field { desc = \"The line was held low\"; } line_break;
list
# Without the fifth source.
undo
undo
redo
list
";

const DMA: &str =
    "// A DMA engine of eight channels. Each copies from one port to another, or works through a ring of descriptors.

// A place in memory, and how to step through it.
regfile port {
    reg {
        // 64 bits, read and written by halves.
        regwidth = 64;
        accesswidth = 32;
        field {} address[40];
    } base;
    reg {
        field {} stride[16];
        field {} count[16];
    } shape;
    reg {
        field {} cache[4] = 3;
        field {} fixed;
    } attributes;
};

regfile channel {
    reg {
        field {} enable;
        field { singlepulse; } start;
        field {} priority[2];
        field {} burst[7:4] = 4;
    } control;
    reg {
        default sw = r;
        default hw = w;
        field {} busy;
        field { onread = rclr; } error;
        field {} left[31:16];
    } status;
    port source;
    port target;
    regfile {
        reg {
            field {} low[32];
        } address;
        reg {
            field {} length[24];
            field {} last[31:31];
        } header;
    } ring[4];
};

addrmap dma {
    name = \"DMA engine\";

    reg {
        default sw = r;
        field {} major[31:16] = 2;
        field {} minor[15:0] = 1;
    } version;
    reg {
        field {} enable;
        field { singlepulse; } flush;
    } control;
    reg {
        default woclr;
        field {} done[8];
        field {} error[8];
    } interrupt;

    channel channels[8] @ 0x100 += 0x80;
    channels.control.priority->reset = 1;
};
";

const DMA_SCRIPT: &str = "# The engine as it is.
list
# One line gives all eight channels a timeout.
add /$channel last reg { field {} cycles[32]; } timeout;
# Two slow channels, further apart.
add /$dma last channel slow[2] @ 0x800 += 0x100;
undo
redo
list
# Back to the beginning, and one step on.
undo
undo
redo
list
";

/// A map, and a script that ends with `list`.
type Example = (&'static str, &'static str);

const EXAMPLES: [Example; 2] = [(UART, UART_SCRIPT), (DMA, DMA_SCRIPT)];

fn examples() -> &'static [Example] {
    &EXAMPLES
}

fn assert_last(rt: &impl Abort, again: &Written, output: &str) -> Result<(), Fail> {
    assert!(rt; output.ends_with(again.messages()?));
    Ok(())
}

// The map that is written has the rows that were listed last.
fn assert_lists_alike(rt: &impl Abort, alloc: Global, written: &Written) -> Result<(), Fail> {
    let again = write(alloc, written.rdl()?, "list")?;
    assert_last(rt, &again, written.messages()?)
}

#[test]
fn list_alike_when_they_are_read_again(rt: HostRuntime) -> Result<(), Fail> {
    for (map, script) in examples() {
        let written = write(rt.alloc(), map, script)?;
        assert_lists_alike(&rt, rt.alloc(), &written)?;
    }
    Ok(())
}
