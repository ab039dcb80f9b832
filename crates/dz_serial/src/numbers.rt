//! The numbers of the serial part (KN02 functional specification): nothing runs here.

ghost use Rattle.std.specs.Prelude.{◌≡◌, ◌^◌};
ghost use Rattle.dz_serial.specs.declared.registers.TheConstants.{CSR, RBUF, LPR, TCR, MSR, TDR, TRDY, TIE, TLINE, RDONE, RIE, MSE, CLR, MAINT, DVAL, OERR, FERR, RX_LINE, RX_ENABLE, LINE_0, LINE_1, LINE_2, LINE_3, BYTE_0, BYTE_1};
ghost use Rattle.dz_serial.specs.declared.silo.TheConstants.{SILO};

/// The offsets of the registers; the bits of CSR, RBUF, LPR and TCR, each by its place; the lanes of bytes 0 and 1; and how many
/// characters the silo holds.
pub fn dz_numbers()
    ensures csr { CSR ≡ 0 }
    ensures rbuf { RBUF ≡ 8 }
    ensures lpr { LPR ≡ 8 }
    ensures tcr { TCR ≡ 16 }
    ensures msr { MSR ≡ 24 }
    ensures tdr { TDR ≡ 24 }
    ensures trdy { TRDY ≡ 2 ^ 15 }
    ensures tie { TIE ≡ 2 ^ 14 }
    ensures tline { TLINE ≡ 2 ^ 8 }
    ensures rdone { RDONE ≡ 2 ^ 7 }
    ensures rie { RIE ≡ 2 ^ 6 }
    ensures mse { MSE ≡ 2 ^ 5 }
    ensures clr { CLR ≡ 2 ^ 4 }
    ensures maint { MAINT ≡ 2 ^ 3 }
    ensures dval { DVAL ≡ 2 ^ 15 }
    ensures oerr { OERR ≡ 2 ^ 14 }
    ensures ferr { FERR ≡ 2 ^ 13 }
    ensures rx_line { RX_LINE ≡ 2 ^ 8 }
    ensures rx_enable { RX_ENABLE ≡ 2 ^ 12 }
    ensures line_0 { LINE_0 ≡ 2 ^ 0 }
    ensures line_1 { LINE_1 ≡ 2 ^ 1 }
    ensures line_2 { LINE_2 ≡ 2 ^ 2 }
    ensures line_3 { LINE_3 ≡ 2 ^ 3 }
    ensures byte_0 { BYTE_0 ≡ 2 ^ 0 }
    ensures byte_1 { BYTE_1 ≡ 2 ^ 1 }
    ensures silo { SILO ≡ 64 }
{}
