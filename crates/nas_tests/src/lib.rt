//! Tests of the libraries: what no contract says, each call once with ample memory. They stand in one crate above all, so that no library
//! is proved a second time for a test.
#![tactic(auto)]

#[cfg(test)]
mod amf;
#[cfg(test)]
mod collisions;
#[cfg(test)]
mod home;
#[cfg(test)]
mod kept_messages;
#[cfg(test)]
mod network;
#[cfg(test)]
mod rules;
#[cfg(test)]
mod small_network;
