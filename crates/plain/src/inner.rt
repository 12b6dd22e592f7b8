// INNER: one bit of a buffer, and where a voxel comes to. A host must not call these.
pub mod bits;
pub mod displaced;
