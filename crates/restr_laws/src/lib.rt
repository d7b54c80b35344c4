//! Laws: what patterns by the codes of directed pieces tell is what the folder of an extract has.
#![tactic(auto)]

mod laws;

pub use laws::{
    flags_at_codes, kept_at_codes, locals_at_codes, masks_at_codes, pieces_at_codes,
    starts_at_codes, stored_at_codes,
};
