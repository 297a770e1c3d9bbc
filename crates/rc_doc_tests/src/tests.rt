//! A document with every form, and the document of a component.

mod blocks;
mod component;
mod copies;
mod forms;
