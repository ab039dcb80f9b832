//! The numbers of the board (KN02 system module; the bits of CSR are own): nothing runs here.

ghost use Rattle.std.specs.Prelude.{◌≡◌, ◌^◌};
ghost use Rattle.kn02_bus.specs.declared.csr.TheConstants.{ENABLE, SERIAL_LINE, LINE_0, LINE_1, LINE_2, BYTE_0, BYTE_2};
ghost use Rattle.kn02_bus.specs.declared.region.TheConstants.{SERIAL_START, SERIAL_BYTES, CLOCK_START, CLOCK_BYTES, CSR_START, CSR_BYTES};

/// Where the devices stand, and how many bytes each has; the bits of CSR, each by its place: the lowest enable, the line of the serial
/// part and the external lines; and the lanes of bytes 0 and 2.
pub fn bus_numbers()
    ensures serial_start { SERIAL_START ≡ 0x1FE0_0000 }
    ensures serial_bytes { SERIAL_BYTES ≡ 0x20 }
    ensures clock_start { CLOCK_START ≡ 0x1FE8_0000 }
    ensures clock_bytes { CLOCK_BYTES ≡ 0x100 }
    ensures csr_start { CSR_START ≡ 0x1FF0_0000 }
    ensures csr_bytes { CSR_BYTES ≡ 4 }
    ensures enable { ENABLE ≡ 2 ^ 16 }
    ensures serial_line { SERIAL_LINE ≡ 2 ^ 7 }
    ensures line_0 { LINE_0 ≡ 2 ^ 0 }
    ensures line_1 { LINE_1 ≡ 2 ^ 1 }
    ensures line_2 { LINE_2 ≡ 2 ^ 2 }
    ensures byte_0 { BYTE_0 ≡ 2 ^ 0 }
    ensures byte_2 { BYTE_2 ≡ 2 ^ 2 }
{}
