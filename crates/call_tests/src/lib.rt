//! Tests of calls that no script reaches: keys, cards and their bounds, lists of chunks, limits of a mailbox, citations,
//! deadlines, rosters and states of chats, pages, devices, the adapters of real ones, the disk model, saves over slots that
//! no run meets, and weights. It has no code of its own.
#![tactic(auto)]

#[cfg(test)]
mod adapters;
#[cfg(test)]
mod asserts;
#[cfg(test)]
mod cards;
#[cfg(test)]
mod chunks;
#[cfg(test)]
mod deadlines;
#[cfg(test)]
mod devices;
#[cfg(test)]
mod disk_model;
#[cfg(test)]
mod keys;
#[cfg(test)]
mod limits;
#[cfg(test)]
mod links;
#[cfg(test)]
mod pages;
#[cfg(test)]
mod real_files;
#[cfg(test)]
mod rosters;
#[cfg(test)]
mod saves;
#[cfg(test)]
mod split_sink;
#[cfg(test)]
mod states;
#[cfg(test)]
mod trial_box;
#[cfg(test)]
mod values;
#[cfg(test)]
mod weights;
