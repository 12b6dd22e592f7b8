// INNER: for the crate of the move call. A host must not call these.
// A target cell comes from up to eight source cells; each is a slot, a part of the source list. The slots of a child are parts of its parent's slots, by the
// addition of labels of document 000.
pub mod descent;
pub mod labels;
pub mod sources;
