// The bench tally.

#![tactic(auto)]

ghost use Rattle.std.specs.Prelude.{◌≡◌, true, eqb, OnErr};
ghost use Rattle.std.specs.Option.{SomeIff};
ghost use Rattle.definition.specs.Basics.{pick};
ghost use Rattle.definition.specs.Walk as Walk;
ghost use Rattle.definition.specs.Walk.{Verdict, fits, one_more};
ghost use Rattle.tally.specs.View.{tally_of, packed, answer_of, gained_of, Gives};

use refusals::Refusal;

/// Fragments, accepted ones, rows, and the greatest peak.
#[derive(Clone, Copy, Debug, PartialEq, Eq)]
pub struct Tally {
    pub fragments: u32,
    pub accepts: u32,
    pub rows: u32,
    pub peak: u32,
}

impl Tally {
    // The tally with one verdict more, if its counts fit 32 bits.
    fn counted(self, number: u32, rows: usize, peak: u32) -> Option<Tally>
        ensures { SomeIff result
            (fits (one_more (tally_of self) (pick (eqb number 0) 1 0) rows peak) ≡ true)
            (packed (one_more (tally_of self) (pick (eqb number 0) 1 0) rows peak)) }
    {
        Some(Tally {
            fragments: self.fragments.checked_add(1)?,
            accepts: self.accepts.checked_add(u32::from(number == 0))?,
            rows: self.rows.checked_add(u32::try_from(rows).ok()?)?,
            peak: self.peak.max(peak),
        })
    }

    /// The tally with one verdict more, of this number, rows and peak. It is full where a count would pass 4,294,967,295.
    // The verdict comes as numbers and no `Result`: so C callers hand it over. 0 is an accepted one.
    pub fn gained(self, number: u32, rows: usize, peak: u32) -> Result<Tally, Refusal>
        ensures { (v : Verdict) → Gives v number rows peak → gained_of (tally_of self) result ≡ Walk.gain (tally_of self) v }
    {
        self.counted(number, rows, peak).ok_or(Refusal::TallyFull)
    }

    /// The tally gains one verdict, of this number, rows and peak.
    pub fn gain(&mut self, number: u32, rows: usize, peak: u32) -> Result<(), Refusal>
        ensures same { (v : Verdict) → Gives v number rows peak → answer_of (tally_of self.new) result ≡ Walk.gain (tally_of self.old) v }
        ensures unchanged { OnErr result (self.new ≡ self.old) }
    {
        *self = self.gained(number, rows, peak)?;
        Ok(())
    }
}
