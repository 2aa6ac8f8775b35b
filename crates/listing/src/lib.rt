// The bytes of a listing, a plan's, a held sheet's and a refusal's, and the words of a placing.
//
// The public modules are for the layer above.
#![tactic(auto)]

mod bill_line;
pub mod held;
pub mod opening;
pub mod placing_words;
pub mod plan_listing;
