mod arguments;
mod made_recordings;
mod outside;
mod reports;
