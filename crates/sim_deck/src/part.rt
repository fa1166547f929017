use dec_text::Decimal;
use deck_shape::Name;
use kmc_base::Sequence;
use run_plan::Plan;

/// The values of a simulation file.
#[derive(Debug, Drop)]
pub struct SimPart {
    /// The seed, the limits and the samplings.
    pub plan: Plan,
    /// In mK, from 1 to 10^7.
    pub temperature: u32,
    /// In bar, from 0 to 10^9.
    pub pressure: Decimal,
    /// The names of the gas species, at most 64.
    pub gas: Sequence<Name>,
    /// The energy of each gas species in neV (10^-9 eV), of a magnitude of at most 10^12.
    pub gas_energies: Sequence<i64>,
    /// The molar fraction of each gas species, from 0 to 1.
    pub gas_fractions: Sequence<Decimal>,
    /// The names of the surface species, at most 64.
    pub surface: Sequence<Name>,
    /// How many dentates each surface species has, from 1 to 8.
    pub dentates: Sequence<u8>,
}
