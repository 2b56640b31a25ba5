// The least and the most of what is taken. These numbers stand nowhere else in any code.
ghost use Rattle.rules.specs.Limits.{Makes};

use crate::refusals::Refusal;

// Limits that lie within their bounds: term limit, variables M and steps of the order.
#[derive(Clone, Copy)]
pub struct Limits {
    pub terms: usize,
    pub variables: usize,
    pub steps: usize,
}

impl Limits {
    pub const TERMS_LEAST: u64 = 128;

    pub const TERMS_MOST: u64 = 16384;

    pub const VARIABLES_LEAST: u32 = 2;

    pub const VARIABLES_MOST: u32 = 1023;

    pub const STEPS_LEAST: usize = 0;

    pub const STEPS_MOST: usize = 4096;

    pub const INPUTS_LEAST: u32 = 2;

    pub const INPUTS_MOST: u32 = 64;

    pub const OUTPUTS_LEAST: u32 = 1;

    pub const OUTPUTS_MOST: u32 = 64;

    pub const DESK_BYTES_MOST: usize = 4096;

    pub const DESK_VARIABLES_MOST: u32 = 127;

    pub const DESK_TERMS: u64 = 512;

    // The limits where all three lie within their bounds, or the first refusal in the order of checks.
    #[tactic(auto, using(std::proofs::lemmas::Bool::Decides::nat_tests), unfolding(crate::specs::Limits::variables_wrong, crate::specs::Limits::terms_wrong, crate::specs::Limits::steps_wrong, crate::specs::Limits::making, crate::specs::Says::first, crate::specs::Says::refuse_or))]
    pub fn made(terms: u64, variables: u32, steps: usize) -> Result<Limits, Refusal>
        ensures { Makes terms variables steps result }
    {
        if !(Limits::VARIABLES_LEAST..=Limits::VARIABLES_MOST).contains(&variables) {
            return Err(Refusal::CountOutside);
        }
        if !(Limits::TERMS_LEAST..=Limits::TERMS_MOST).contains(&terms) {
            return Err(Refusal::TermLimit);
        }
        if !(Limits::STEPS_LEAST..=Limits::STEPS_MOST).contains(&steps) {
            return Err(Refusal::WrongOrder);
        }
        Ok(Limits {
            terms: terms as usize,
            variables: variables as usize,
            steps,
        })
    }
}
