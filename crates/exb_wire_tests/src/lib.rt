//! Tests of what goes over a wire: frames and their tags, announcements, ECP, the control protocol,
//! its sessions, and links. Each module has one driver; the cases are bytes as hexadecimal digits,
//! steps in words, and what must come of them. Nothing stands on this crate.
#![tactic(auto)]

#[cfg(test)]
mod announcements;
#[cfg(test)]
mod ecp;
#[cfg(test)]
mod formats;
#[cfg(test)]
mod frames;
#[cfg(test)]
mod links;
#[cfg(test)]
mod messages;
#[cfg(test)]
mod mutations;
#[cfg(test)]
mod plain_tables;
#[cfg(test)]
mod row_words;
#[cfg(test)]
mod sessions;
#[cfg(test)]
mod tables;
