mod bodies;
mod manifests;
mod replies;
mod root;
mod targets;
