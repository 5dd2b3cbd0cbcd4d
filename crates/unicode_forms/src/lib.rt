// Texts by their characters: UTF-8, canonical decomposition and canonical order (Unicode Standard Annex 15).
#![tactic(auto)]

pub mod form;
pub mod order;
pub mod table;
pub mod utf8;
