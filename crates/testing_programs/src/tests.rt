mod compare;
mod replies;
mod runs;
