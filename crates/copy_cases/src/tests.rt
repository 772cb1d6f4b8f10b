//! A child and a parent, each of which is handed what the other one sent.

mod alarms;
mod connections;
mod crashes;
mod draws;
mod ends;
mod gaps;
mod histories;
mod peers;
mod quotas;
mod refusals;
mod row;
mod schedule;
mod senders;
mod table;
mod tap;
mod wire;
