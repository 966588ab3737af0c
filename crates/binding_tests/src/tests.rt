//! A file for each topic.
mod binding;
mod service;
mod shown;
mod terms;
