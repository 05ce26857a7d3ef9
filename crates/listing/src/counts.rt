// How many calls of each kind a listing has so far.
ghost use Rattle.std.specs.Prelude.{◌≡◌, ◌<◌};
ghost use Rattle.listing.specs.Counts.{total_of, tally};

use calls::Call;

#[derive(Clone, Copy, Default)]
pub(crate) struct Counts {
    pub(crate) push: u16,
    pub(crate) pop: u16,
    pub(crate) retire: u16,
    pub(crate) owner_step: u16,
    pub(crate) helper_step: u16,
    pub(crate) finish: u16,
    pub(crate) land: u16,
}

impl Counts {
    pub(crate) fn total(&self) -> u32
        ensures total { result ≡ total_of self.now }
    {
        self.push as u32
            + self.pop as u32
            + self.retire as u32
            + self.owner_step as u32
            + self.helper_step as u32
            + self.finish as u32
            + self.land as u32
    }

    // A day file has far fewer records than the counts can hold.
    pub(crate) fn add<J, O>(&mut self, call: &Call<J, O>)
        requires { total_of self.old < 65535 }
        ensures tally { self.new ≡ tally call.now self.old }
    {
        match call {
            Call::Push { .. } => self.push += 1,
            Call::Pop => self.pop += 1,
            Call::Retire => self.retire += 1,
            Call::OwnerStep => self.owner_step += 1,
            Call::HelperStep { .. } => self.helper_step += 1,
            Call::Finish { .. } => self.finish += 1,
            Call::Land => self.land += 1,
        }
    }
}
