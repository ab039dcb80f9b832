//! The numbers of the clock (MC146818 data sheet; the units of a second are own): nothing runs here.

ghost use Rattle.std.specs.Prelude.{◌≡◌, ◌^◌};
ghost use Rattle.mc146818.specs.declared.divider.TheConstants.{UNITS, NEAR_END};
ghost use Rattle.mc146818.specs.declared.registers.TheConstants.{SECONDS, SECONDS_ALARM, MINUTES, MINUTES_ALARM, HOURS, HOURS_ALARM, WEEKDAY, DAY, MONTH, YEAR, REGISTER_A, REGISTER_B, REGISTER_C, REGISTER_D, RAM, RAM_BYTES, PM, DONT_CARE, UIP, DV_RUNS, SET, PIE, AIE, UIE, DM, HOURS_24, DSE, IRQF, PF, AF, UF, VRT};

/// The numbers of the registers, and how much RAM there is; the bits of an hour and of A, B and C, each by its place; the alarm
/// bytes that any time meets; the DV that runs; what D reads; and how many units a second has, and after how many an update is near.
pub fn clock_numbers()
    ensures seconds { SECONDS ≡ 0 }
    ensures seconds_alarm { SECONDS_ALARM ≡ 1 }
    ensures minutes { MINUTES ≡ 2 }
    ensures minutes_alarm { MINUTES_ALARM ≡ 3 }
    ensures hours { HOURS ≡ 4 }
    ensures hours_alarm { HOURS_ALARM ≡ 5 }
    ensures weekday { WEEKDAY ≡ 6 }
    ensures day { DAY ≡ 7 }
    ensures month { MONTH ≡ 8 }
    ensures year { YEAR ≡ 9 }
    ensures register_a { REGISTER_A ≡ 10 }
    ensures register_b { REGISTER_B ≡ 11 }
    ensures register_c { REGISTER_C ≡ 12 }
    ensures register_d { REGISTER_D ≡ 13 }
    ensures ram { RAM ≡ 14 }
    ensures ram_bytes { RAM_BYTES ≡ 50 }
    ensures pm { PM ≡ 2 ^ 7 }
    ensures dont_care { DONT_CARE ≡ 0xC0 }
    ensures uip { UIP ≡ 2 ^ 7 }
    ensures dv_runs { DV_RUNS ≡ 2 }
    ensures set { SET ≡ 2 ^ 7 }
    ensures pie { PIE ≡ 2 ^ 6 }
    ensures aie { AIE ≡ 2 ^ 5 }
    ensures uie { UIE ≡ 2 ^ 4 }
    ensures dm { DM ≡ 2 ^ 2 }
    ensures hours_24 { HOURS_24 ≡ 2 ^ 1 }
    ensures dse { DSE ≡ 2 ^ 0 }
    ensures irqf { IRQF ≡ 2 ^ 7 }
    ensures pf { PF ≡ 2 ^ 6 }
    ensures af { AF ≡ 2 ^ 5 }
    ensures uf { UF ≡ 2 ^ 4 }
    ensures vrt { VRT ≡ 0x80 }
    ensures units { UNITS ≡ 8192 }
    ensures near_end { NEAR_END ≡ 8190 }
{}
