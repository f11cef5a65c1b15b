//! Tests of the engine, of restarts, of a folder, of sessions, of scripts, and of what an operator
//! asks for. They use public names alone.
#![tactic(auto)]

// What several of these tests use.
#[cfg(test)]
mod common;
// als_engine.
#[cfg(test)]
mod engine;
// als_folder.
#[cfg(test)]
mod folders;
// als_inspect.
#[cfg(test)]
mod inspect;
// als_operate and als_shipper.
#[cfg(test)]
mod operate;
// als_script.
#[cfg(test)]
mod script;
// als_ship.
#[cfg(test)]
mod ship;
// als_engine and als_world, crashed and begun again, and opened over altered devices.
#[cfg(test)]
mod trials;
