// The contracts of `Engine::open`, `Engine::crash` and `als_world::run` admit a body that always wants
// memory. These trials show that they succeed. An allocation fails once at most: a trial that meets
// one is made once more.

// A log text, and the page that it makes.
mod text;
// A standby in memory, and what is looked at in it.
mod standby;
// The steps of a script.
mod script;
// A standby that is crashed after each step of a script.
mod crashes;
// A takeover that goes on after a crash.
mod takeover;
// Devices that are opened with other bytes.
mod altered;
// A primary that follows a source again.
mod again;
// Runs of a world, with crashes and failing devices.
mod worlds;
