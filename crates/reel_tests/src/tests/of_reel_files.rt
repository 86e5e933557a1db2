//! Files of the system as reels, one call after another.

mod syncs;
