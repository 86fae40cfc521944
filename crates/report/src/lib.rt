//! Reports and statuses, their texts, and the devices that provide sources and take the report.
#![tactic(auto)]

pub mod lines;
pub mod outside;
pub mod report;
pub mod report_text;
pub mod status;
pub mod status_text;
pub mod text;
pub mod writing;
