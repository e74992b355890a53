//! The engine for C and for what calls C: each function is a call of the engine, and gives a number for its answer.
#![tactic(auto)]

mod asking;
mod fault;
mod given_numbers;
mod given_text;
mod growth;
mod numbers;
mod outbox;
mod outbox_numbers;
mod placing;
mod run;
mod site;
mod status;
mod status_text;
mod tags;
mod version;
mod world;
