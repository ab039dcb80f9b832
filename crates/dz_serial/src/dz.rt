//! The serial part as a whole.

ghost use Rattle.std.specs.Prelude.{◌≡◌, ◌≤◌};
ghost use Rattle.dz_serial.specs.Serial.{reset_serial};
ghost use Rattle.dz_serial.specs.Silo.{rdone};
ghost use Rattle.dz_serial.specs.Reads.{interrupt_line_of};

use crate::line::{LINES, SerialLine};
use crate::silo::{Received, SILO};
use arrayvec::ArrayVec;
use std::marker::Model;

/// The serial part. It has four lines, 0 to 3, and takes no memory beyond its own.
#[derive(Debug, Drop, PartialEq, Eq)]
pub struct Dz {
    /// Characters received and not yet read, the oldest first.
    pub(crate) silo: ArrayVec<Received, SILO>,
    /// Of each line: for how many ticks it still sends.
    pub(crate) busy: [u16; LINES],
    /// Of each line: whether a byte was lost since the last one stored.
    pub(crate) lost: [bool; LINES],
    /// Of each line: whether its receiver is on.
    pub(crate) receivers: [bool; LINES],
    /// Of each line: whether it may send.
    pub(crate) enabled: [bool; LINES],
    pub(crate) tline: SerialLine,
    pub(crate) trdy: bool,
    pub(crate) tie: bool,
    pub(crate) rie: bool,
    pub(crate) mse: bool,
    pub(crate) maint: bool,
    /// The line that a byte was last sent on.
    pub(crate) last_served: SerialLine,
    /// For how many ticks a line sends a byte.
    pub(crate) byte_time: u16,
}

impl Model for Dz {
    ghost use Rattle.std.specs.Prelude.{◌≤◌};
    ghost use Rattle.dz_serial.specs.Serial.{Serial};

    ghost Value = { Serial };

    ghost view = { λ a. record {
      silo = a.silo.items;
      lost = a.lost;
      receivers = a.receivers;
      enabled = a.enabled;
      busy = a.busy;
      tline = a.tline;
      trdy = a.trdy;
      tie = a.tie;
      rie = a.rie;
      mse = a.mse;
      maint = a.maint;
      last_served = a.last_served;
      byte_time = a.byte_time;
    } };

    ghost invariant = { λ a. 1 ≤ a.byte_time };

    ghost inverse = { λ s. record {
      silo = record { items = s.silo };
      busy = s.busy;
      lost = s.lost;
      receivers = s.receivers;
      enabled = s.enabled;
      tline = s.tline;
      trdy = s.trdy;
      tie = s.tie;
      rie = s.rie;
      mse = s.mse;
      maint = s.maint;
      last_served = s.last_served;
      byte_time = s.byte_time;
    } };
}

impl Dz {
    /// The part at reset. A line sends a byte in `byte_time` ticks, 1 to 65,535.
    pub fn new(byte_time: u32) -> Dz
        requires above { 1 ≤ byte_time }
        requires within { byte_time ≤ 65535 }
        ensures { result ≡ reset_serial byte_time }
    {
        Dz {
            silo: ArrayVec::new(),
            busy: [0; LINES],
            lost: [false; LINES],
            receivers: [false; LINES],
            enabled: [false; LINES],
            tline: SerialLine::new(0),
            trdy: false,
            tie: false,
            rie: false,
            mse: false,
            maint: false,
            last_served: SerialLine::new(0),
            byte_time: byte_time as u16,
        }
    }

    /// Makes the part equal to another one.
    pub fn assign(&mut self, other: &Dz)
        ensures { self.new ≡ other.now }
    {
        self.silo.clear();
        // There is room for all of them.
        let _copied = self.silo.try_extend_from_slice(&other.silo);
        self.lost = other.lost;
        self.receivers = other.receivers;
        self.enabled = other.enabled;
        self.busy = other.busy;
        self.tline = other.tline;
        self.trdy = other.trdy;
        self.tie = other.tie;
        self.rie = other.rie;
        self.mse = other.mse;
        self.maint = other.maint;
        self.last_served = other.last_served;
        self.byte_time = other.byte_time;
    }

    /// Whether a character waits in the silo.
    #[inline]
    pub(crate) fn rdone(&self) -> bool
        ensures { result ≡ rdone self.now }
    {
        !self.silo.is_empty()
    }

    /// Whether the interrupt line is up: TIE and TRDY, or RIE and RDONE.
    #[inline]
    pub fn interrupts(&self) -> bool
        ensures { result ≡ interrupt_line_of self.now }
    {
        self.tie && self.trdy || self.rie && self.rdone()
    }
}
