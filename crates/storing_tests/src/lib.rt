//! Tests of what `bit_fields` stores, by public calls: values, bits, and the fields of the writer; and of the placed bits from which
//! it stores.
#![tactic(auto)]

#[cfg(test)]
mod expected;
#[cfg(test)]
mod packed;
#[cfg(test)]
mod placed;
#[cfg(test)]
mod texts;
#[cfg(test)]
mod writer;
#[cfg(test)]
mod written;
